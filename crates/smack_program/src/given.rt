ghost use Rattle.std.specs.Prelude.{◌≡◌, ◌⊎◌, Ok, Err, MatchResult, IfOk, IfErr, drop, map, string_bytes};
ghost use Rattle.std.specs.IoError.{error_kind};
ghost use Rattle.std.specs.Vec.Iter.{into_iter_items};
ghost use Rattle.smack_program.specs.Given.{status_without_words, words_given};

use crate::status::Status;
use smack_base::Sequence;
use std::alloc::{AllocError, Global};
use std::env::Args;
use std::io;
use std::io::{Error, ErrorKind};

/// What to answer where the words of the command line cannot be had. Words that are no UTF-8 are
/// those of no command.
fn status_of_words(error: Error) -> Status
    ensures is { result ≡ status_without_words (error_kind error) }
    ensures either { (result ≡ Status.OutOfMemory) ⊎ (result ≡ Status.Usage) }
{
    match error.kind() {
        ErrorKind::OutOfMemory => Status::OutOfMemory,
        _ => Status::Usage,
    }
}

/// The words but the first, in a list.
fn listed(alloc: Global, mut words: Args) -> Result<Sequence<String>, AllocError>
    ensures { IfOk result (λ listed. listed ≡ drop 1 (into_iter_items words)) }
{
    let mut listed = Sequence::new(alloc);
    let _program = words.next();
    while let Some(word) = words.next() {
        listed.push(word)?;
    }
    Ok(listed)
}

/// The words of the command line as the system gave them, without the program's name; or what to
/// answer where there are none, or no memory for them.
pub fn words_of(alloc: Global, given: io::Result<Args>) -> Result<Sequence<String>, Status>
    ensures is { MatchResult result
        (λ words. words_given given ≡ Ok (map string_bytes words))
        (λ status. (words_given given ≡ Err status) ⊎ (status ≡ Status.OutOfMemory)) }
    ensures either { IfErr result (λ status. (status ≡ Status.OutOfMemory) ⊎ (status ≡ Status.Usage)) }
{
    match given {
        Ok(words) => match listed(alloc, words) {
            Ok(listed) => Ok(listed),
            Err(_) => Err(Status::OutOfMemory),
        },
        Err(error) => Err(status_of_words(error)),
    }
}

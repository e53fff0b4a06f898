ghost use Rattle.std.specs.Prelude.{◌≡◌, ◌++◌, OnOk};
ghost use Rattle.log_spec.specs.Shown.{plain_words};
ghost use Rattle.record_spec.specs.Entries.{why_text as text_of_why, reply_words};
ghost use Rattle.call_words.specs.Spelling.{words_by};

use crate::words::put_numbered;
use call_words::{Spelling, put_number, put_word};
use std::alloc::AllocError;
use world_spec::{Listing, Reply, Why};

/// The names of a listing, each a word.
fn put_names(out: &mut Vec<u8>, _by: &Spelling, names: &Listing) -> Result<(), AllocError>
    ensures { OnOk result (out.new.items ≡ out.old.items ++ words_by _by.now (plain_words names.now)) }
{
    let mut left = names.names();
    while let Some(name) = left.next() {
        put_word(out, name)?;
    }
    Ok(())
}

fn why_text(why: Why) -> &'static [u8]
    ensures { result.now ≡ text_of_why why }
{
    match why {
        Why::Exists => b"exists",
        Why::IsRoot => b"is-root",
        Why::NotDirectory => b"not-directory",
        Why::NotPrivileged => b"not-privileged",
        Why::NoSuchTask => b"no-such-task",
        Why::NoSuchName => b"no-such-name",
        Why::Range => b"range",
        Why::Again => b"again",
        Why::TasksFull { limit: _ } => b"tasks-full",
        Why::SelfFull { limit: _ } => b"self-full",
        Why::RelabelFull { limit: _ } => b"relabel-full",
        Why::TreeFull { limit: _ } => b"tree-full",
    }
}

/// The words of a reply.
pub fn put_reply(out: &mut Vec<u8>, by: &Spelling, reply: &Reply) -> Result<(), AllocError>
    ensures { OnOk result (out.new.items ≡ out.old.items ++ words_by by.now (reply_words reply.now)) }
{
    match reply {
        Reply::Ok => put_word(out, b"ok"),
        Reply::Child(number) => put_numbered(out, b"child", u64::from(*number)),
        Reply::Signal(sig) => put_numbered(out, b"signal", u64::from(*sig)),
        Reply::Names { count, names } => {
            put_word(out, b"names")?;
            put_number(out, u64::from(*count))?;
            put_number(out, names.len() as u64)?;
            put_names(out, by, names)
        }
        Reply::Denied(case) => put_numbered(out, b"denied", u64::from(*case)),
        Reply::Refused(why) => put_word(out, why_text(*why)),
    }
}

ghost use Rattle.std.specs.Prelude.{◌≡◌, ◌<◌, ◌≤◌, ◌+◌, ◌^◌, [], ◌∷◌, length, position, MatchOption, IfSome};
ghost use Rattle.std.specs.List.{position_or_len};
ghost use Rattle.smack_base.specs.Paths.{is_slash};
ghost use Rattle.smack_base.specs.PathNames.{path_name, path_names};

use std::marker::Model;

/// The names of a path that are still to be read, each behind a slash, with their places.
#[derive(Drop)]
pub(crate) struct PathNames<'a> {
    at: u32,
    rest: &'a [u8],
}

impl<'a> Model for PathNames<'a> {
    ghost use Rattle.std.specs.Prelude.{List, ◌+◌, ◌<◌, ◌^◌, length};
    ghost use Rattle.smack_base.specs.Paths.{PathName};
    ghost use Rattle.smack_base.specs.PathNames.{names_left};

    ghost Value = { List PathName };

    ghost view = { λ n. names_left n.at n.rest.now };

    ghost invariant = { λ n. n.at + length n.rest.now < 2 ^ 32 };
}

fn first_slash(bytes: &[u8]) -> Option<usize>
    ensures { result ≡ position is_slash bytes.now }
{
    bytes.iter().position(|b| *b == b'/')
}

/// How many bytes stand before the first slash.
#[tactic(auto, using(crate::proofs::Places::no_place))]
fn name_len(bytes: &[u8]) -> usize
    ensures len { result ≡ position_or_len is_slash bytes.now }
    ensures within { result ≤ length bytes.now }
{
    match first_slash(bytes) {
        Some(at) => at,
        None => bytes.len(),
    }
}

impl<'a> PathNames<'a> {
    /// The names of a path; `/` has none.
    pub(crate) fn of(path: &'a [u8]) -> PathNames<'a>
        requires { length path.now < 2 ^ 32 }
        ensures { result ≡ path_names path.now }
    {
        let rest = if path.len() == 1 { &path[1..] } else { path };
        PathNames { at: 0, rest }
    }

    /// The place of the next name, and its bytes.
    pub(crate) fn next(&mut self) -> Option<(u32, &'a [u8])>
        ensures names { MatchOption result ((self.old ≡ []) × (self.new ≡ [])) (λ n. self.old ≡ path_name n.0 n.1.now ∷ self.new) }
        ensures fits { IfSome result (λ n. n.0 + length n.1.now < 2 ^ 32) }
    {
        if self.rest.is_empty() {
            return None;
        }
        let at = self.at + 1;
        let behind = &self.rest[1..];
        let len = name_len(behind);
        self.at = at + len as u32;
        self.rest = &behind[len..];
        Some((at, &behind[..len]))
    }
}

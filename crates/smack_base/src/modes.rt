ghost use Rattle.std.specs.Prelude.{◌≡◌, ◌<◌, ◌^◌, ◌≤◌, ◌++◌, ◌∷◌, [], length, IfSome, MatchResult, Some, None};
ghost use Rattle.smack_base.specs.Modes.{modes_of, letters_of, is_letter, bad_letter, is_modes, holds, union, without, when};

use std::marker::Model;

/// A set of access modes (Smack guide, "Access Rule Format").
#[derive(Clone, Copy, Debug, PartialEq, Eq)]
pub struct Modes {
    /// `r`
    pub read: bool,
    /// `w`
    pub write: bool,
    /// `x`
    pub execute: bool,
    /// `a`
    pub append: bool,
    /// `t`: a new file in a transmuting directory gets the directory's label.
    pub transmute: bool,
    /// `b`: kept, and without effect.
    pub bring_up: bool,
}

/// The place, from 0, of the first byte that is no mode letter and no `-`.
#[derive(Clone, Copy, PartialEq, Eq)]
pub struct BadLetter {
    pub at: u32,
}

fn is_mode_letter(b: u8) -> bool
    ensures { result ≡ is_letter b }
{
    matches!(
        b,
        b'r' | b'R' | b'w' | b'W' | b'x' | b'X' | b'a' | b'A' | b't' | b'T' | b'b' | b'B' | b'-'
    )
}

impl Modes {
    /// No access.
    pub const NONE: Modes = Modes {
        read: false,
        write: false,
        execute: false,
        append: false,
        transmute: false,
        bring_up: false,
    };

    /// Read and execute, which the ordered cases tell from the other modes.
    pub const READ_EXECUTE: Modes = Modes {
        read: true,
        execute: true,
        ..Modes::NONE
    };

    /// The set of the letters in a text: any order, either case, repeats and `-` without effect,
    /// an empty text no access; or the first bad letter.
    #[tactic(auto, using(crate::proofs::ModeLetters::letters_more, crate::proofs::ModeLetters::letters_all, crate::proofs::ModeLetters::bad_first, crate::proofs::ModeLetters::bad_here, crate::proofs::ModeLetters::bad_later, crate::proofs::ModeLetters::bad_none))]
    pub fn read(bytes: &[u8]) -> Result<Modes, BadLetter>
        requires { length bytes.now < 2 ^ 32 }
        ensures { MatchResult result (λ m. (bad_letter bytes.now ≡ None) × (m ≡ modes_of bytes.now)) (λ bad. bad_letter bytes.now ≡ Some bad.at) }
    {
        let mut modes = Modes::NONE;
        for (at, letter) in bytes.iter().enumerate() {
            if !is_mode_letter(*letter) {
                return Err(BadLetter { at: at as u32 });
            }
            modes = modes.with_letter(*letter);
        }
        Ok(modes)
    }

    /// The place of the first byte of a text that is no mode letter and no `-`.
    pub fn first_bad(bytes: &[u8]) -> Option<usize>
        ensures place { result ≡ bad_letter bytes.now }
        ensures within { IfSome result (λ at. at < length bytes.now) }
    {
        bytes.iter().position(|b| !is_mode_letter(*b))
    }

    /// Whether a text is a mode set: it has no byte but mode letters and `-`.
    pub fn are_letters(bytes: &[u8]) -> bool
        ensures { result ≡ is_modes bytes.now }
    {
        Modes::first_bad(bytes).is_none()
    }

    /// The set of the letters that stand in a text, whatever else stands there.
    #[tactic(auto, using(crate::proofs::ModeLetters::letters_more, crate::proofs::ModeLetters::letters_all))]
    pub fn of(bytes: &[u8]) -> Modes
        ensures { result ≡ modes_of bytes.now }
    {
        let mut modes = Modes::NONE;
        for letter in bytes.iter() {
            modes = modes.with_letter(*letter);
        }
        modes
    }

    /// The set with the mode of a letter; the same set where the byte is no letter.
    fn with_letter(self, letter: u8) -> Modes
        ensures { result ≡ union self (modes_of (letter ∷ [])) }
    {
        match letter {
            b'r' | b'R' => Modes { read: true, ..self },
            b'w' | b'W' => Modes {
                write: true,
                ..self
            },
            b'x' | b'X' => Modes {
                execute: true,
                ..self
            },
            b'a' | b'A' => Modes {
                append: true,
                ..self
            },
            b't' | b'T' => Modes {
                transmute: true,
                ..self
            },
            b'b' | b'B' => Modes {
                bring_up: true,
                ..self
            },
            _ => self,
        }
    }

    /// Whether every mode of the other set is in this one.
    pub fn has(&self, other: Modes) -> bool
        ensures { result ≡ holds self.now other }
    {
        (!other.read || self.read)
            && (!other.write || self.write)
            && (!other.execute || self.execute)
            && (!other.append || self.append)
            && (!other.transmute || self.transmute)
            && (!other.bring_up || self.bring_up)
    }

    /// The modes of either set.
    pub fn plus(self, other: Modes) -> Modes
        ensures { result ≡ union self other }
    {
        Modes {
            read: self.read || other.read,
            write: self.write || other.write,
            execute: self.execute || other.execute,
            append: self.append || other.append,
            transmute: self.transmute || other.transmute,
            bring_up: self.bring_up || other.bring_up,
        }
    }

    /// The modes of this set that are not in the other.
    pub fn less(self, other: Modes) -> Modes
        ensures { result ≡ without self other }
    {
        Modes {
            read: self.read && !other.read,
            write: self.write && !other.write,
            execute: self.execute && !other.execute,
            append: self.append && !other.append,
            transmute: self.transmute && !other.transmute,
            bring_up: self.bring_up && !other.bring_up,
        }
    }

    /// The printed form: the letters of the set in the order `rwxatb`, or `-`.
    pub fn text(&self) -> ModeText
        ensures { result ≡ letters_of self.now }
    {
        let mut text = ModeText {
            buf: [0; 6],
            len: 0,
        };
        text.put(self.read, b'r');
        text.put(self.write, b'w');
        text.put(self.execute, b'x');
        text.put(self.append, b'a');
        text.put(self.transmute, b't');
        text.put(self.bring_up, b'b');
        if text.len == 0 {
            text.put(true, b'-');
        }
        text
    }
}

/// The printed form of a mode set: 1 to 6 bytes.
#[derive(Drop)]
pub struct ModeText {
    buf: [u8; 6],
    len: usize,
}

impl Model for ModeText {
    ghost use Rattle.std.specs.Prelude.{List, ℕ, take, ◌≤◌};

    ghost Value = { List ℕ };

    ghost view = { λ t. take t.len t.buf };

    ghost invariant = { λ t. t.len ≤ 6 };
}

impl ModeText {
    fn put(&mut self, on: bool, letter: u8)
        requires { length self.old < 6 }
        ensures { self.new ≡ self.old ++ when on letter }
    {
        if on {
            self.buf[self.len] = letter;
            self.len += 1;
        }
    }

    /// The bytes of the text.
    pub fn bytes(&self) -> &[u8]
        ensures { result.now ≡ self.now }
    {
        &self.buf[..self.len]
    }
}

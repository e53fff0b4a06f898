ghost use Rattle.std.specs.Prelude.{◌≡◌, ◌<◌, ◌≤◌, length, not, position, IfSome, None, Some, MatchResult};
ghost use Rattle.smack_base.specs.Labels.{label_fault, is_label_byte};

use std::marker::Model;

/// A Smack label: 1 to 255 bytes from 0x21 to 0x7E, none of them `/`, `\`, `'` or `"`, the first
/// not `-` (Smack guide, "Labels"; the exact bytes are our own). Upper and lower case are
/// different labels.
#[derive(Drop)]
pub struct Label {
    buf: [u8; 255],
    len: usize,
}

impl Model for Label {
    ghost use Rattle.std.specs.Prelude.{List, ℕ, take, ◌≤◌, ◌≡◌, None};
    ghost use Rattle.smack_base.specs.Labels.{label_fault};

    ghost Value = { List ℕ };

    ghost view = { λ l. take l.len l.buf };

    ghost invariant = { λ l. (l.len ≤ 255) × (label_fault (take l.len l.buf) ≡ None) };
}

/// What is wrong with a text as a label, the first in this order.
#[derive(Clone, Copy, PartialEq, Eq)]
pub enum LabelFault {
    /// It has no byte.
    Empty,
    /// It has more than 255 bytes.
    TooLong,
    /// Its first byte is `-`.
    LeadingDash,
    /// The byte at this place, from 0, is the first that no label has.
    BadByte { at: u32 },
}

fn is_of_label(b: u8) -> bool
    ensures { result ≡ is_label_byte b }
{
    if b > b'/' {
        b <= b'~' && b != b'\\'
    } else {
        b > b' ' && b != b'/' && b != b'\'' && b != b'"'
    }
}

impl Label {
    /// The place of the first byte of a text that no label has.
    pub fn first_bad(bytes: &[u8]) -> Option<usize>
        ensures place { result ≡ position (λ b. not (is_label_byte b)) bytes.now }
        ensures within { IfSome result (λ at. at < length bytes.now) }
    {
        bytes.iter().position(|b| !is_of_label(*b))
    }

    /// The first fault of a text as a label; None exactly where it is a label. The text is judged
    /// where it lies.
    pub fn fault(bytes: &[u8]) -> Option<LabelFault>
        ensures { result ≡ label_fault bytes.now }
    {
        if bytes.is_empty() {
            return Some(LabelFault::Empty);
        }
        if bytes.len() > 255 {
            return Some(LabelFault::TooLong);
        }
        if bytes[0] == b'-' {
            return Some(LabelFault::LeadingDash);
        }
        match Label::first_bad(bytes) {
            Some(at) => Some(LabelFault::BadByte { at: at as u32 }),
            None => None,
        }
    }

    /// The label that these bytes are, or the first fault that they have.
    pub fn read(bytes: &[u8]) -> Result<Label, LabelFault>
        ensures { MatchResult result (λ l. (label_fault bytes.now ≡ None) × (l ≡ bytes.now)) (λ f. label_fault bytes.now ≡ Some f) }
    {
        match Label::fault(bytes) {
            Some(fault) => Err(fault),
            None => Ok(Label::of(bytes)),
        }
    }

    fn of(bytes: &[u8]) -> Label
        requires short { length bytes.now ≤ 255 }
        requires label { label_fault bytes.now ≡ None }
        ensures { result ≡ bytes.now }
    {
        let mut buf = [0u8; 255];
        buf[..bytes.len()].copy_from_slice(bytes);
        Label {
            buf,
            len: bytes.len(),
        }
    }

    /// The bytes of the label: a text without a fault.
    pub fn bytes(&self) -> &[u8]
        ensures text { result.now ≡ self.now }
        ensures label { label_fault self.now ≡ None }
    {
        &self.buf[..self.len]
    }
}

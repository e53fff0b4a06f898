ghost use Rattle.std.specs.Prelude.{◌≡◌, ◌<◌, ◌^◌};
ghost use Rattle.rule_word.specs.Layout.{worth as worth_of, modes_number as modes_number_of};
ghost use Rattle.rule_word.specs.Fields.{tag_in, first_in, second_in, allow_in, deny_in, modes_of_number};

use smack_base::{LabelId, Modes};

fn worth(flag: bool, n: u8) -> u8
    ensures { result ≡ worth_of flag n }
{
    if flag { n } else { 0 }
}

/// A set of modes as a number below 64: one bit for each mode.
pub(crate) fn modes_number(m: Modes) -> u8
    ensures number { result ≡ modes_number_of m }
    ensures few { result < 64 }
{
    worth(m.read, 1)
        + worth(m.write, 2)
        + worth(m.execute, 4)
        + worth(m.append, 8)
        + worth(m.transmute, 16)
        + worth(m.bring_up, 32)
}

/// The modes of a number, whatever stands above its six lowest bits.
fn modes_of(n: u8) -> Modes
    ensures { result ≡ modes_of_number n }
{
    Modes {
        read: n % 2 == 1,
        write: n / 2 % 2 == 1,
        execute: n / 4 % 2 == 1,
        append: n / 8 % 2 == 1,
        transmute: n / 16 % 2 == 1,
        bring_up: n / 32 % 2 == 1,
    }
}

/// The kind of write that a word has.
pub(crate) fn tag(word: u64) -> u64
    ensures { result ≡ tag_in word }
{
    word >> 60
}

/// The label of a word's first field.
pub(crate) fn first(word: u64) -> LabelId
    ensures { result.0 ≡ first_in word }
{
    LabelId(((word >> 44) % 65_536) as u16)
}

/// The label of a word's second field.
pub(crate) fn second(word: u64) -> LabelId
    ensures { result.0 ≡ second_in word }
{
    LabelId(((word >> 28) % 65_536) as u16)
}

/// The number of a word's third field.
pub(crate) fn number(word: u64) -> u8
    ensures { result ≡ allow_in word }
{
    ((word >> 20) % 256) as u8
}

/// The modes of a word's third field.
pub(crate) fn allowed(word: u64) -> Modes
    ensures { result ≡ modes_of_number (allow_in word) }
{
    modes_of(number(word))
}

/// The modes of a word's fourth field.
pub(crate) fn denied(word: u64) -> Modes
    ensures { result ≡ modes_of_number (deny_in word) }
{
    modes_of(((word >> 12) % 256) as u8)
}

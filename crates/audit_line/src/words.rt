ghost use Rattle.std.specs.Prelude.{◌≡◌, ◌↔◌, ◌<◌, ℕ, Some, IfSome, IsTrue};
ghost use Rattle.std.specs.List.{list_all};
ghost use Rattle.smack_base.specs.declared.modes.Modes.{Modes as ModesOf};
ghost use Rattle.smack_base.specs.Labels.{is_label as is_label_text};
ghost use Rattle.smack_base.specs.Modes.{letters_of};
ghost use Rattle.smack_base.specs.Paths.{is_name_byte};
ghost use Rattle.log_spec.specs.declared.Action.{Action as ActionOf};
ghost use Rattle.log_spec.specs.Numerals.{numeral};
ghost use Rattle.log_spec.specs.Audits.{action_text, is_word as is_word_text};

use itoa::Buffer;
use log_spec::Action;
use smack_base::{Label, Modes};

/// What came of a check, of the word for it.
pub(crate) fn read_action(word: &[u8]) -> Option<Action>
    ensures is { IfSome result (λ action. word.now ≡ action_text action) }
    ensures all { (action : ActionOf) → word.now ≡ action_text action → result ≡ Some action }
{
    if word == b"granted".as_slice() {
        Some(Action::Granted)
    } else if word == b"denied".as_slice() {
        Some(Action::Denied)
    } else {
        None
    }
}

/// The mode set that is printed so.
pub(crate) fn read_modes(word: &[u8]) -> Option<Modes>
    ensures is { IfSome result (λ modes. word.now ≡ letters_of modes) }
    ensures all { (modes : ModesOf) → word.now ≡ letters_of modes → result ≡ Some modes }
{
    let modes = Modes::of(word);
    if modes.text().bytes() == word {
        Some(modes)
    } else {
        None
    }
}

fn parsed(text: &str) -> Option<u8>
    ensures { (n : ℕ) → n < 256 → text.now ≡ numeral n → result ≡ Some n }
{
    match text.parse::<u8>() {
        Ok(n) => Some(n),
        Err(_) => None,
    }
}

/// The number of one byte that a word is; zeros and a plus may stand in front.
fn number(word: &[u8]) -> Option<u8>
    ensures { (n : ℕ) → n < 256 → word.now ≡ numeral n → result ≡ Some n }
{
    match std::str::from_utf8(word) {
        Ok(text) => parsed(text),
        Err(_) => None,
    }
}

/// Whether a word is this number, as it is printed.
fn is_printed(case: u8, word: &[u8]) -> bool
    ensures { IsTrue result ↔ (word.now ≡ numeral case) }
{
    let mut buffer = Buffer::new();
    buffer.format(case).as_bytes() == word
}

/// The case that is printed so.
pub(crate) fn read_case(word: &[u8]) -> Option<u8>
    ensures is { IfSome result (λ case. word.now ≡ numeral case) }
    ensures all { (case : ℕ) → case < 256 → word.now ≡ numeral case → result ≡ Some case }
{
    match number(word) {
        Some(case) if is_printed(case, word) => Some(case),
        _ => None,
    }
}

fn are_of_word(bytes: &[u8]) -> bool
    ensures { result ≡ list_all is_name_byte bytes.now }
{
    bytes.iter().all(|b| b.is_ascii_graphic())
}

pub(crate) fn is_word(bytes: &[u8]) -> bool
    ensures { result ≡ is_word_text bytes.now }
{
    bytes.len() >= 1 && are_of_word(bytes)
}

pub(crate) fn is_label(bytes: &[u8]) -> bool
    ensures { result ≡ is_label_text bytes.now }
{
    Label::read(bytes).is_ok()
}

use rule_text::Part;
use smack_base::{Modes, Sequence};

/// A write to rules or settings as a text spells it: its labels are parts of the text.
#[derive(Clone, Copy)]
pub enum NamedOp<'a> {
    /// The rule of a pair has these modes.
    Set {
        s: Part<'a>,
        o: Part<'a>,
        m: Modes,
    },
    /// The rule of a pair gains modes, and then loses modes.
    Change {
        s: Part<'a>,
        o: Part<'a>,
        allow: Modes,
        deny: Modes,
    },
    /// The rules of a subject lose their modes.
    Revoke {
        s: Part<'a>,
    },
    /// The onlycap list is empty.
    OnlyClear,
    /// A label joins the onlycap list.
    OnlyAdd {
        l: Part<'a>,
    },
    /// The ambient label.
    Ambient {
        l: Part<'a>,
    },
    /// The ptrace policy, at most 2.
    Ptrace {
        n: u8,
    },
    /// The logging mode, at most 3.
    Logging {
        n: u8,
    },
}

/// Writes as a text spells them, in order.
pub type NamedOps<'a> = Sequence<NamedOp<'a>>;

use smack_base::Modes;

/// `r` alone.
pub const READ: Modes = Modes {
    read: true,
    ..Modes::NONE
};

/// `w` alone.
pub const WRITE: Modes = Modes {
    write: true,
    ..Modes::NONE
};

/// `x` alone.
pub const EXECUTE: Modes = Modes {
    execute: true,
    ..Modes::NONE
};

/// `r` and `w`.
pub const READ_WRITE: Modes = Modes {
    read: true,
    write: true,
    ..Modes::NONE
};

/// `r` and `x`.
pub const READ_EXECUTE: Modes = Modes {
    read: true,
    execute: true,
    ..Modes::NONE
};

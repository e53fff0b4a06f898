use smack_base::LabelId;

/// The attributes that nodes and sockets have.
#[derive(Clone, Copy, PartialEq, Eq)]
pub enum Attr {
    /// `SMACK64`.
    Main,
    /// `SMACK64EXEC`.
    Exec,
    /// `SMACK64MMAP`.
    Mmap,
    /// `SMACK64TRANSMUTE`.
    Transmute,
    /// `SMACK64IPIN`, which sockets alone have.
    IpIn,
    /// `SMACK64IPOUT`, which sockets alone have.
    IpOut,
}

/// What an attribute is set to.
#[derive(Clone, Copy, PartialEq, Eq)]
pub enum AttrValue {
    Label(LabelId),
    /// The word `TRUE`.
    True,
}

/// Why an attribute can't be set or taken away.
#[derive(Clone, Copy, PartialEq, Eq)]
pub enum AttrFault {
    /// The node has no such attribute, or may not be without it.
    BadAttribute,
    /// The attribute takes no such value.
    BadValue,
    /// The attribute is for directories, and the node is a file.
    NotDirectory,
    /// The attribute is for files, and the node is a directory.
    NotRegular,
}

/// A capability that bears on Smack (Smack guide, "Privilege", and `onlycap` and `ptrace` in its
/// list of smackfs files).
#[derive(Clone, Copy, PartialEq, Eq)]
pub enum Cap {
    /// CAP_MAC_ADMIN: change rules, attributes and the own label.
    MacAdmin,
    /// CAP_MAC_OVERRIDE: access past a denial.
    MacOverride,
    /// CAP_SYS_PTRACE: trace past ptrace policy 1.
    SysPtrace,
}

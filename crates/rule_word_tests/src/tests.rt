use rule_word::{Head, pack, pack_head, unpack, unpack_head};
use smack_base::{LabelId, Modes, RuleOp};
use std::test::Fail;

const READ_WRITE: Modes = Modes {
    read: true,
    write: true,
    ..Modes::NONE
};

const ALL: Modes = Modes {
    read: true,
    write: true,
    execute: true,
    append: true,
    transmute: true,
    bring_up: true,
};

/// The greatest label id.
const LAST: LabelId = LabelId(65_534);

#[test]
fn a_set_is_this_word(rt: HostRuntime) -> Result<(), Fail> {
    let op = RuleOp::Set {
        s: LabelId(5),
        o: LabelId(6),
        m: READ_WRITE,
    };
    assert_eq!(rt; pack(&op), 0x1000_5000_6030_0000);
    assert_eq!(rt; unpack(0x1000_5000_6030_0000), Some(op));
    Ok(())
}

#[test]
fn a_head_is_this_word(rt: HostRuntime) -> Result<(), Fail> {
    let head = Head {
        task: 1,
        seq: 2,
        len: 3,
    };
    assert_eq!(rt; pack_head(&head), 0xF001_0000_2000_3000);
    assert_eq!(rt; unpack_head(0xF001_0000_2000_3000), Some(head));
    Ok(())
}

#[test]
fn each_kind_of_write_is_unpacked(rt: HostRuntime) -> Result<(), Fail> {
    let ops = [
        RuleOp::Set {
            s: LAST,
            o: LabelId(0),
            m: ALL,
        },
        RuleOp::Change {
            s: LabelId(1),
            o: LAST,
            allow: READ_WRITE,
            deny: ALL,
        },
        RuleOp::Revoke { s: LAST },
        RuleOp::OnlyClear,
        RuleOp::OnlyAdd { l: LAST },
        RuleOp::Ambient { l: LAST },
        RuleOp::Ptrace { n: 2 },
        RuleOp::Logging { n: 3 },
    ];
    for op in &ops {
        assert_eq!(rt; unpack(pack(op)), Some(*op));
    }
    Ok(())
}

#[test]
fn other_words_are_none(rt: HostRuntime) -> Result<(), Fail> {
    let words = [
        0,
        0x1000_5000_6030_0001,
        0x1000_5000_6030_1000,
        0x1000_5000_6400_0000,
        0x1FFF_F000_6030_0000,
        0x3000_5000_1000_0000,
        0x4000_0000_0010_0000,
        0x7000_0000_0030_0000,
        0x8000_0000_0040_0000,
        0x9000_0000_0000_0000,
        0xF001_0000_2000_3000,
    ];
    for word in &words {
        assert!(rt; unpack(*word).is_none());
    }
    assert!(rt; unpack_head(0xF001_0000_2000_3001).is_none());
    assert!(rt; unpack_head(0xE001_0000_2000_3000).is_none());
    assert!(rt; unpack_head(0x1000_5000_6030_0000).is_none());
    Ok(())
}

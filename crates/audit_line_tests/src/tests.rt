use audit_line::{AuditParts, put_line, read_line, selected};
use label_table::Labels;
use rules_spec::Verdict;
use smack_base::{Label, LabelId, Modes};
use std::test::Fail;

const READ_WRITE: Modes = Modes {
    read: true,
    write: true,
    execute: false,
    append: false,
    transmute: false,
    bring_up: false,
};

#[test]
fn a_denied_check_is_printed_behind_what_stands(rt: HostRuntime) -> Result<(), Fail> {
    let mut labels = Labels::new(rt.alloc())?;
    let subject = labels.add(&Label::read(b"A").ok().ok_or("a label")?)?;
    let verdict = Verdict {
        allowed: false,
        case: 7,
        over: 0,
        subject,
        object: LabelId::FLOOR,
        modes: READ_WRITE,
    };
    let mut out = Vec::from_slice(rt.alloc(), b"=\n")?;
    put_line(&mut out, &labels, b"unlink", &verdict)?;
    let line = b"=\na action=denied fn=unlink subject=A object=_ requested=rw case=7\n";
    assert_eq!(rt; out.as_slice(), line.as_slice());
    Ok(())
}

#[test]
fn a_denied_check_is_read(rt: HostRuntime) -> Result<(), Fail> {
    let line = b"a action=denied fn=unlink subject=A object=_ requested=rw case=7\n";
    let parts = AuditParts {
        granted: false,
        verb: b"unlink",
        subject: b"A",
        object: b"_",
        modes: READ_WRITE,
        case: 7,
    };
    assert_eq!(rt; read_line(line), Some(parts));
    Ok(())
}

#[test]
fn values_at_the_edges_are_read(rt: HostRuntime) -> Result<(), Fail> {
    let line = b"a action=granted fn=! subject=~ object=a=b requested=- case=255\n";
    let parts = AuditParts {
        granted: true,
        verb: b"!",
        subject: b"~",
        object: b"a=b",
        modes: Modes::NONE,
        case: 255,
    };
    assert_eq!(rt; read_line(line), Some(parts));
    for length in [255, 256] {
        let mut long = Vec::from_slice(rt.alloc(), b"a action=granted fn=open subject=")?;
        for _ in 0..length {
            long.push(b'A')?;
        }
        long.extend_from_slice(b" object=_ requested=rwxatb case=0\n")?;
        assert_eq!(rt; read_line(long.as_slice()).is_some(), length == 255);
    }
    Ok(())
}

#[test]
fn other_bytes_are_no_line(rt: HostRuntime) -> Result<(), Fail> {
    let rows = [
        b"".as_slice(),
        b"\n",
        b"a action=denied fn=unlink subject=A object=_ requested=rw case=7",
        b"a action=denied fn=unlink subject=A object=_ requested=rw case=7\n\n",
        b"a action=denied fn=unlink subject=A object=_ requested=rw case=7 \n",
        b" action=denied fn=unlink subject=A object=_ requested=rw case=7\n",
        b"a action=denied fn=unlink subject=A object=_ requested=rw case7\n",
        b"a action=denied fn=unlink subject=A requested=rw case=7\n",
        b"a action=denied fn=unlink object=_ subject=A requested=rw case=7\n",
        b"a action=denied  fn=unlink subject=A object=_ requested=rw case=7\n",
        b"a action=denied\tfn=unlink subject=A object=_ requested=rw case=7\n",
        b"a action=allowed fn=unlink subject=A object=_ requested=rw case=7\n",
        b"a action=denied fn= subject=A object=_ requested=rw case=7\n",
        b"a action=denied fn=unlink subject=-x object=_ requested=rw case=7\n",
        b"a action=denied fn=unlink subject=A object= requested=rw case=7\n",
        b"a action=denied fn=unlink subject=A object=/ requested=rw case=7\n",
        b"a action=denied fn=unlink subject=A object=_ requested=wr case=7\n",
        b"a action=denied fn=unlink subject=A object=_ requested=R case=7\n",
        b"a action=denied fn=unlink subject=A object=_ requested=rr case=7\n",
        b"a action=denied fn=unlink subject=A object=_ requested= case=7\n",
        b"a action=denied fn=unlink subject=A object=_ requested=r- case=7\n",
        b"a action=denied fn=unlink subject=A object=_ requested=rw case=07\n",
        b"a action=denied fn=unlink subject=A object=_ requested=rw case=+7\n",
        b"a action=denied fn=unlink subject=A object=_ requested=rw case=256\n",
        b"a action=denied fn=unlink subject=A object=_ requested=rw case=\n",
        b"a action=denied fn=unlink subject=\xC3\xA4 object=_ requested=rw case=7\n",
    ];
    for row in rows {
        assert_eq!(rt; read_line(row), None);
    }
    Ok(())
}

#[test]
fn logging_modes_select_checks(rt: HostRuntime) -> Result<(), Fail> {
    for (logging, denied, granted) in [
        (0, false, false),
        (1, true, false),
        (2, false, true),
        (3, true, true),
        (4, false, false),
    ] {
        assert_eq!(rt; selected(logging, false), denied);
        assert_eq!(rt; selected(logging, true), granted);
    }
    Ok(())
}

//! Dumps as a reader meets them: which texts are accepted, and at which line and for what the others are refused.
use gh_dump::{DumpFault, DumpWhy, VerifyError, verify};
use std::alloc::Global;

// What a text is told; nothing if memory runs out.
fn told(alloc: Global, text: &[u8]) -> Option<Result<u32, DumpFault>> {
    match verify(alloc, text) {
        Ok(count) => Some(Ok(count)),
        Err(VerifyError::Dump(fault)) => Some(Err(fault)),
        Err(VerifyError::NoMemory) => None,
    }
}

#[test]
fn accepts_certificates(rt: HostRuntime) {
    let cases: [(&str, u32); 8] = [
        (
            "global 0 ref a.0\nobject a.0 bytes 16 rank 0 global 0\nfield 0 ref a.1\nobject a.1 bytes 16 rank 1 parent a.0 field 0\ntotal 2 bytes 32\n",
            2,
        ),
        ("total 0 bytes 0", 0),
        ("total 0 bytes 0\n", 0),
        ("total\t0  bytes 0\r\n", 0),
        // ranks need not begin at 0, and a parent may stand behind its child
        (
            "global 0 ref a.0\nobject a.0 bytes 0 rank 5 global 0\ntotal 1 bytes 0\n",
            1,
        ),
        (
            "global 0 ref b.0\nobject a.0 bytes 8 rank 1 parent b.0 field 3\nobject b.0 bytes 32 rank 0 global 0\nfield 3 ref a.0+2\ntotal 2 bytes 40\n",
            2,
        ),
        // numbers may have zeros at their front
        (
            "global 0 ref a.0\nobject a.00 bytes 8 rank 0 global 00\ntotal 1 bytes 08\n",
            1,
        ),
        (
            "global 0 ref a.0+4294967295\nobject a.0 bytes 0 rank 4294967295 global 0\ntotal 1 bytes 0\n",
            1,
        ),
    ];
    for (text, count) in cases {
        assert_eq!(rt;
            told(rt.alloc(), text.as_bytes()),
            Some(Ok(count)),
            "{text}"
        );
    }
}

#[test]
fn refuses_at_the_first_line_for_its_first_cause(rt: HostRuntime) {
    let cases: [(&str, u32, DumpWhy); 26] = [
        // without a line of a certificate, or with a global that names nothing
        (
            "global 0 ref a.0\nobject a.0 bytes 16 rank 0 global 0\nobject a.1 bytes 16 rank 1 parent a.0 field 0\ntotal 2 bytes 32\n",
            3,
            DumpWhy::Parent,
        ),
        (
            "global 0 ref a.5\nglobal 0 ref a.0\nobject a.0 bytes 16 rank 0 global 0\nfield 0 ref a.1\nobject a.1 bytes 16 rank 1 parent a.0 field 0\ntotal 2 bytes 32\n",
            1,
            DumpWhy::Unknown,
        ),
        (
            "global 0 ref a.0\nobject a.0 bytes 16 rank 0 global 0\nfield 0 ref a.1\nobject a.1 bytes 16 rank 1 parent a.0 field 0\n",
            4,
            DumpWhy::Total,
        ),
        // two objects that name one another: what is reached is listed, but not the other way round
        (
            "object a.0 bytes 16 rank 1 parent a.1 field 0\nfield 0 ref a.1\nobject a.1 bytes 16 rank 2 parent a.0 field 0\nfield 0 ref a.0\ntotal 2 bytes 32\n",
            1,
            DumpWhy::Parent,
        ),
        ("", 0, DumpWhy::Total),
        // no form, a wrong place, a number too great
        ("\n", 1, DumpWhy::Word),
        ("total 0 bytes\n", 1, DumpWhy::Word),
        ("total 0 bytes -0\n", 1, DumpWhy::Word),
        ("global 0 ref a.0+4294967296\n", 1, DumpWhy::Word),
        ("global 0 ref A.0\n", 1, DumpWhy::Word),
        (
            "object a.0 bytes 8 rank 0 global 0\nglobal 0 ref a.0\ntotal 1 bytes 8\n",
            2,
            DumpWhy::Word,
        ),
        ("field 0 ref a.0\n", 1, DumpWhy::Word),
        ("total 0 bytes 0\n\n", 2, DumpWhy::Word),
        // listed twice, numbers that do not ascend
        (
            "global 0 ref a.0\nobject a.0 bytes 8 rank 0 global 0\nobject a.0 bytes 8 rank 0 global 0\n",
            3,
            DumpWhy::Twice,
        ),
        (
            "global 1 ref a.0\nglobal 0 ref a.0\nobject a.0 bytes 8 rank 0 global 0\n",
            2,
            DumpWhy::Twice,
        ),
        (
            "global 0 ref a.0\nobject a.0 bytes 8 rank 0 global 0\nfield 1 ref a.0\nfield 1 ref a.0\n",
            4,
            DumpWhy::Twice,
        ),
        // an origin that is not listed: the fields of a second listing count for no child
        (
            "global 0 ref a.0\nobject a.1 bytes 8 rank 1 parent a.0 field 0\nobject a.0 bytes 8 rank 0 global 0\nobject a.0 bytes 8 rank 0 global 0\nfield 0 ref a.1\n",
            2,
            DumpWhy::Parent,
        ),
        (
            "global 0 ref a.0\nobject a.0 bytes 8 rank 0 global 0\nfield 0 ref a.1\nobject a.1 bytes 8 rank 0 parent a.0 field 0\n",
            4,
            DumpWhy::Parent,
        ),
        (
            "global 1 ref a.0\nobject a.0 bytes 8 rank 0 global 0\n",
            2,
            DumpWhy::Parent,
        ),
        // other numbers than those listed
        (
            "global 0 ref a.0\nobject a.0 bytes 8 rank 0 global 0\ntotal 1 bytes 9\n",
            3,
            DumpWhy::Total,
        ),
        (
            "global 0 ref a.0\nobject a.0 bytes 8 rank 0 global 0\ntotal 2 bytes 8\n",
            3,
            DumpWhy::Total,
        ),
        // two causes on one line
        (
            "global 0 ref a.0\nobject a.0 bytes 8 rank 0 global 0\nglobal 0 ref a.0\n",
            3,
            DumpWhy::Word,
        ),
        ("field 0 ref a.7\n", 1, DumpWhy::Word),
        ("total 0 bytes 0\ntotal 1 bytes 1\n", 2, DumpWhy::Word),
        (
            "global 0 ref a.0\nglobal 0 ref a.7\nobject a.0 bytes 8 rank 0 global 0\n",
            2,
            DumpWhy::Twice,
        ),
        (
            "global 0 ref a.0\nobject a.0 bytes 8 rank 0 global 0\nobject a.0 bytes 8 rank 3 global 7\n",
            3,
            DumpWhy::Twice,
        ),
    ];
    for (text, line, why) in cases {
        let fault = DumpFault { line, why };
        assert_eq!(rt;
            told(rt.alloc(), text.as_bytes()),
            Some(Err(fault)),
            "{text}"
        );
    }
}

// Examples of what is read on the line, and of what the writers refuse.
#![tactic(auto)]

#[cfg(test)]
mod tests {
    use std::process::Abort;
    use wire::{Ending, Found, Frame, Place, Refusal, read_next, write_sentence};

    // How many good items some bytes hold, where the first begins, and how many bytes are left unread.
    #[derive(Clone, Copy, Debug, PartialEq, Eq)]
    struct Tally {
        items: usize,
        first: usize,
        unread: usize,
    }

    fn read_all(bytes: &[u8], ending: Ending) -> Tally {
        let mut place = Place { at: 0 };
        let mut items = 0;
        let mut first = 0;
        let unread = loop {
            match read_next(bytes, ending, &mut place) {
                Found::Good(at, _) => {
                    if items == 0 {
                        first = at;
                    }
                    items += 1;
                }
                Found::Unfinished(at) => break bytes.len() - at,
                Found::End => break 0,
            }
        };
        Tally {
            items,
            first,
            unread,
        }
    }

    // Some bytes, how many good items are in them, where the first begins, and how many bytes are unread.
    #[derive(Clone, Copy)]
    struct Case<'a>(&'a [u8], usize, usize, usize);

    fn check_cases(rt: &impl Abort, cases: &[Case], ending: Ending) {
        for &Case(bytes, items, first, unread) in cases {
            assert_eq!(rt;
                read_all(bytes, ending),
                Tally {
                    items,
                    first,
                    unread,
                }
            );
        }
    }

    #[test]
    fn frames(rt: HostRuntime) {
        let cases = [
            Case(
                b"\xba\xce\x04\x00\x06\x04\xe8\x03\x00\x00\xec\x03\x06\x04",
                1,
                0,
                0,
            ),
            Case(
                b"\xba\xba\xce\x04\x00\x06\x04\xe8\x03\x00\x00\xec\x03\x06\x04",
                1,
                1,
                0,
            ),
            Case(
                b"\xba\xce\x04\x00\x06\x04\xe8\x03\x00\x00\xec\x03\x04\x06",
                0,
                0,
                0,
            ),
            Case(b"\xba\xce\x00\x00\x06\x04\x00\x00\x06\x04", 1, 0, 0),
            Case(b"\xba\xce\x02\x00", 0, 0, 0),
            Case(b"\xba\xce\x04", 0, 0, 3),
            Case(b"\xba\xba\xce", 0, 0, 2),
            Case(b"\xba\xce\x04\x00\x06\x04$*00\r\n\x00\x00", 1, 6, 0),
        ];
        check_cases(&rt, &cases, Ending::More);
    }

    #[test]
    fn sentences(rt: HostRuntime) {
        let cases = [
            Case(b"$PCAS04,3*1A\r\n", 1, 0, 0),
            Case(b"$PCAS04,3*1a\r\n", 0, 0, 0),
            Case(b"$PCAS04,3*1B\r", 0, 0, 13),
            Case(b"$PCAS04,3*1B\r\n", 0, 0, 0),
            Case(b"$PCAS$PCAS04,3*1A\r\n", 1, 5, 0),
            Case(b"$*00\r\n", 1, 0, 0),
            Case(
                b"$AAAAAAAAAAAAAAAAAAAAAAAAAAAAAAAAAAAAAAAAAAAAAAAAAAAAAAAAAAAAAAAAAAAAAAAAAAAA*00\r\n",
                1,
                0,
                0,
            ),
            Case(
                b"$AAAAAAAAAAAAAAAAAAAAAAAAAAAAAAAAAAAAAAAAAAAAAAAAAAAAAAAAAAAAAAAAAAAAAAAAAAAAA*41\r\n",
                0,
                0,
                0,
            ),
            Case(
                b"$AAAAAAAAAAAAAAAAAAAAAAAAAAAAAAAAAAAAAAAAAAAAAAAAAAAAAAAAAAAAAAAAAAAAAAAAAAAAAAAA",
                0,
                0,
                81,
            ),
            Case(
                b"$AAAAAAAAAAAAAAAAAAAAAAAAAAAAAAAAAAAAAAAAAAAAAAAAAAAAAAAAAAAAAAAAAAAAAAAAAAAAAAAAA",
                0,
                0,
                0,
            ),
        ];
        check_cases(&rt, &cases, Ending::More);
    }

    #[test]
    fn pauses(rt: HostRuntime) {
        let cases = [
            Case(b"\xba\xce\x10\x00\x06\x03$PCAS04,3*1A\r\n\xba", 1, 6, 0),
            Case(b"$ABC", 0, 0, 0),
        ];
        check_cases(&rt, &cases, Ending::Pause);
    }

    fn frame(class: u8, id: u8, payload: &[u8]) -> Frame<'_> {
        Frame { class, id, payload }
    }

    #[test]
    fn payload_sizes(rt: HostRuntime) {
        let mut out = [0u8; 78];
        assert_eq!(rt; frame(1, 0x10, &[7; 64]).write(&mut out[0..74]), Ok(74));
        assert_eq!(rt; read_all(&out[0..74], Ending::More).items, 1);
        assert_eq!(rt;
            frame(1, 0x10, &[7; 68]).write(&mut out),
            Err(Refusal::PayloadLength)
        );
        assert_eq!(rt; frame(1, 0x10, &[0; 68]).sum(), 0x1001_0044);
        let mut long = [0u8; 78];
        long[0..12].copy_from_slice(b"\xba\xce\x44\x00\x01\x10\x00\x00\x00\x00\x00\x00");
        long[74..78].copy_from_slice(b"\x44\x00\x01\x10");
        assert_eq!(rt; read_all(&long, Ending::More).items, 0);
    }

    #[test]
    fn refusals(rt: HostRuntime) {
        let mut out = [9u8; 14];
        assert_eq!(rt;
            frame(6, 4, &[1, 2, 3]).write(&mut out),
            Err(Refusal::PayloadLength)
        );
        assert_eq!(rt;
            frame(6, 4, &[0; 8]).write(&mut out),
            Err(Refusal::OutputTooShort)
        );
        assert_eq!(rt; write_sentence(b"A*B", &mut out), Err(Refusal::Body));
        assert_eq!(rt; write_sentence(&[b'A'; 77], &mut out), Err(Refusal::Body));
        assert_eq!(rt;
            write_sentence(b"PCAS04,37", &mut out),
            Err(Refusal::OutputTooShort)
        );
        assert_eq!(rt; out, [9; 14]);
        assert_eq!(rt; write_sentence(b"PCAS04,3", &mut out), Ok(14));
        assert_eq!(rt; &out, b"$PCAS04,3*1A\r\n");
        assert_eq!(rt; Refusal::PayloadLength.number(), 11);
        assert_eq!(rt; Refusal::Body.number(), 12);
        assert_eq!(rt; Refusal::OutputTooShort.number(), 13);
    }
}

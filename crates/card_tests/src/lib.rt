// A card as its host sees it: commands, what they draw, and what is kept at a switch-over.
#![tactic(auto)]

#[cfg(test)]
mod tests {
    use battery::Battery;
    use card::{Card, Refusal};
    use journal::Journal;
    use memory::SettingsMemory;
    use std::process::Abort;

    const ROOM: usize = 2304;

    // ACK and NACK of CFG-RATE.
    const ACK: &[u8] = b"\xba\xce\x04\x00\x05\x01\x06\x04\x00\x00\x0a\x04\x05\x01";

    const NACK: &[u8] = b"\xba\xce\x04\x00\x05\x00\x06\x04\x00\x00\x0a\x04\x05\x00";

    // The interval of 1,000 ms, as CFG-RATE carries it.
    const SECOND: &[u8] = b"\xba\xce\x04\x00\x06\x04\xe8\x03\x00\x00\xec\x03\x06\x04";

    // The pulse of the factory, and the same with the falling edge.
    const RISING: &[u8] =
        b"\xba\xce\x10\x00\x06\x03\x40\x42\x0f\x00\xa0\x86\x01\x00\x01\x00\x00\x00\x00\x00\x00\x00\xf1\xc8\x16\x03";

    const FALLING: &[u8] =
        b"\xba\xce\x10\x00\x06\x03\x40\x42\x0f\x00\xa0\x86\x01\x00\x01\x01\x00\x00\x00\x00\x00\x00\xf1\xc9\x16\x03";

    // A question for the pulse, and an order to save the pulse.
    const ASK_PULSE: &[u8] = b"\xba\xce\x00\x00\x06\x03\x00\x00\x06\x03";

    const SAVE_PULSE: &[u8] = b"\xba\xce\x04\x00\x06\x05\x10\x00\x01\x00\x14\x00\x07\x05";

    // Sends bytes that draw these bytes and count as so many accepted and turned down.
    fn draws<M: SettingsMemory>(
        rt: &impl Abort,
        card: &mut Card<M>,
        bytes: &[u8],
        drawn: &[u8],
        accepted: usize,
        down: usize,
    ) {
        let mut reply = [0xee; ROOM];
        assert_eq!(rt;
            card.send(bytes, &mut reply),
            Ok((drawn.len(), accepted, down))
        );
        assert!(rt; drawn.len() < ROOM);
        assert!(rt; &reply[..drawn.len()] == drawn);
        assert!(rt; reply[drawn.len()] == 0xee);
    }

    #[test]
    fn intervals(rt: HostRuntime) {
        let mut card = Card::build(Battery::new([0; 320]));
        draws(
            &rt,
            &mut card,
            b"\xba\xce\x00\x00\x06\x04\x00\x00\x06\x04",
            SECOND,
            1,
            0,
        );
        draws(&rt, &mut card, SECOND, ACK, 1, 0);
        draws(
            &rt,
            &mut card,
            b"\xba\xba\xce\x04\x00\x06\x04\xe8\x03\x00\x00\xec\x03\x06\x04",
            ACK,
            1,
            0,
        );
        draws(
            &rt,
            &mut card,
            b"\xba\xce\x04\x00\x06\x04\xe8\x03\x00\x00\xec\x03\x04\x06",
            b"",
            0,
            0,
        );
        draws(
            &rt,
            &mut card,
            b"\xba\xce\x04\x00\x06\x04\x63\x00\x00\x00\x67\x00\x06\x04",
            NACK,
            0,
            1,
        );
        draws(
            &rt,
            &mut card,
            b"\xba\xce\x04\x00\x06\x04\x10\x27\x00\x00\x14\x27\x06\x04",
            ACK,
            1,
            0,
        );
        draws(
            &rt,
            &mut card,
            b"\xba\xce\x04\x00\x06\x04\x11\x27\x00\x00\x15\x27\x06\x04",
            NACK,
            0,
            1,
        );
    }

    #[test]
    fn sentences(rt: HostRuntime) {
        let mut card = Card::build(Battery::new([0; 320]));
        draws(&rt, &mut card, b"$PCAS04,3*1A\r\n", b"", 1, 0);
        draws(&rt, &mut card, b"$PCAS04,8*11\r\n", b"", 0, 1);
        draws(&rt, &mut card, b"$PCAS02,", b"", 0, 0);
        draws(&rt, &mut card, b"500*1A\r\n", b"", 1, 0);
        let mut sheet = [0xee; 96];
        assert_eq!(rt; card.sheet(&mut sheet), Ok(60));
        let text = b"baud,gga,gll,rmc,zda,utc,interval,systems\n1,1,0,1,1,0,500,3\n";
        assert!(rt; sheet.get(..60) == Some(text.as_slice()));
        assert!(rt; sheet.get(60) == Some(&0xee));
    }

    #[test]
    fn refusals(rt: HostRuntime) {
        let mut card = Card::build(Battery::new([0; 320]));
        let mut reply = [0xee; ROOM];
        let mut short = [0xee; ROOM - 1];
        let mut sheet = [0xee; 95];
        assert_eq!(rt; card.send(&[0; 257], &mut reply), Err(Refusal::SendTooLong));
        assert_eq!(rt; card.send(&[0; 257], &mut short), Err(Refusal::SendTooLong));
        assert_eq!(rt;
            card.send(&[0; 256], &mut short),
            Err(Refusal::ReplyTooShort)
        );
        assert_eq!(rt; card.pause(&mut short), Err(Refusal::ReplyTooShort));
        assert_eq!(rt; card.sheet(&mut sheet), Err(Refusal::SheetTooShort));
        assert!(rt; reply == [0xee; ROOM]);
        assert!(rt; short == [0xee; ROOM - 1]);
        assert!(rt; sheet == [0xee; 95]);
    }

    // A journal of so many free slots, which a save of all five sections spends or leaves.
    fn saves_all(rt: &impl Abort, image: &mut [u8], accepted: usize, down: usize) {
        let mut card = Card::build(Journal::new(image));
        draws(rt, &mut card, b"$PCAS00*01\r\n", b"", accepted, down);
    }

    #[test]
    fn saves(rt: HostRuntime) {
        let mut five = [255; 320];
        saves_all(&rt, &mut five, 1, 0);
        assert!(rt; [five[0], five[64], five[128], five[192], five[256]] == [1; 5]);
        saves_all(&rt, &mut five, 0, 1);
        let mut four = [255; 256];
        saves_all(&rt, &mut four, 0, 1);
        assert!(rt; four == [255; 256]);
    }

    // The falling edge is saved, withdrawn and acknowledged; the save after it finds too few writes, and power comes back.
    #[test]
    fn switch_over(rt: HostRuntime) {
        let mut image = [255; 128];
        let mut card = Card::build(Journal::new(&mut image));
        let taken = b"\xba\xce\x04\x00\x05\x01\x06\x03\x00\x00\x0a\x03\x05\x01";
        let saved = b"\xba\xce\x04\x00\x05\x01\x06\x05\x00\x00\x0a\x05\x05\x01";
        draws(&rt, &mut card, FALLING, taken, 1, 0);
        draws(&rt, &mut card, SAVE_PULSE, saved, 1, 0);
        draws(&rt, &mut card, RISING, taken, 1, 0);
        draws(&rt, &mut card, ASK_PULSE, RISING, 1, 0);
        draws(&rt, &mut card, b"$PCAS00*01\r\n", b"", 0, 1);
        card.power();
        draws(&rt, &mut card, ASK_PULSE, FALLING, 1, 0);
        draws(&rt, &mut card, RISING, taken, 1, 0);
        draws(&rt, &mut card, SAVE_PULSE, saved, 1, 0);
        card.power();
        draws(&rt, &mut card, ASK_PULSE, RISING, 1, 0);
    }
}

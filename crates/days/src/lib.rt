// Days at the stand: sessions with the replies that were reckoned by hand.
#![tactic(auto)]

#[cfg(test)]
mod copies;
#[cfg(test)]
mod sheets;

#[cfg(test)]
mod tests {
    use plan::refusals::Refusal;
    use session::turns::Session;
    use std::test::Fail;

    // A line and its reply.
    type Turn = (&'static [u8], &'static [u8]);

    // A day with the 10.0 % line, cut at 40, that meets every refusal of a session but that of a short buffer.
    const DAY: [Turn; 33] = [
        (b"O 3", b"! 23 T 1 1\n"),
        (b"L 0.931 0.922 0.0394 65", b"! 12 T 6 2\n"),
        (b"L 0.931 0.922 1 65 2", b"! 2 N 3 3\n"),
        (b"L 0.931 0.922 0.0394 65 2", b"P 65\n"),
        (b"S 2 0", b"! 24 T 1 5\n"),
        (b"C 40 254", b"! 2 N 2 6\n"),
        (b"C 0 300", b"! 2 N 1 7\n"),
        (b"I 3 0", b"! 21 B 3 8\n"),
        (b"C 40 1", b"P 40\n"),
        (b"C 39 1", b"! 24 T 1 10\n"),
        (b"O 32", b"! 1 B 32 11\n"),
        (b"O 3", b"O 3\n"),
        (b"O 3", b"! 20 B 3 13\n"),
        (b"O 31", b"O 31\n"),
        (b"I 3 2", b"! 3 N 1 15\n"),
        (b"I 40 2", b"! 1 B 40 16\n"),
        (b"I 4 2", b"! 3 N 1 17\n"),
        (b"I 4 1", b"! 21 B 4 18\n"),
        (b"I 31 1", b"I 31 1 1 R\n"),
        (b"I 31 0", b"! 22 B 31 20\n"),
        (b"I 3 0", b"I 3 1 0 -\n"),
        (b"R 31", b"R 31 1 1 R\n"),
        (b"X 31", b"X 31 1 1 R\n"),
        (b"R 31", b"! 21 B 31 24\n"),
        (b"R 3", b"R 3 1 0 -\n"),
        (b"X 3", b"X 3 1 0 -\n"),
        (b"L 1 1 0.1 10 1", b"! 24 T 1 27\n"),
        (b"", b"! 12 T 1 28\n"),
        (b"F 100000", b"! 12 T 1 29\n"),
        (b"I 3 0 0", b"! 12 T 4 30\n"),
        (b"X", b"! 12 T 2 31\n"),
        (b"O 12345678", b"! 12 T 2 32\n"),
        (b"o 3", b"! 12 T 1 33\n"),
    ];

    #[test]
    fn a_day(rt: HostRuntime) -> Result<(), Fail> {
        let mut session = Session::new();
        let mut buffer = [b'.'; 100];
        for (line, reply) in DAY {
            let n = session.answer(line, &mut buffer).unwrap_or(0);
            assert!(rt; n <= 100);
            assert_eq!(rt; &buffer[0..n], reply);
        }
        assert_eq!(rt; buffer[99], b'.');
        Ok(())
    }

    // Two lots of the 10.0 % line, an item of each in turn: one clean, the other clean but for item 15.
    #[test]
    fn two_lots(rt: HostRuntime) -> Result<(), Fail> {
        let mut session = Session::new();
        let mut buffer = [0; 96];
        let _ = session.answer(b"L 0.931 0.922 0.0394 65 2", &mut buffer);
        let _ = session.answer(b"O 0", &mut buffer);
        let _ = session.answer(b"O 1", &mut buffer);
        for item in 1..25 {
            let faulty: &[u8] = if item == 15 { b"I 1 1" } else { b"I 1 0" };
            let _ = session.answer(faulty, &mut buffer);
            let _ = session.answer(b"I 0 0", &mut buffer);
        }
        assert_eq!(rt; &buffer[0..11], b"I 0 24 0 A\n".as_slice());
        for _ in 25..50 {
            let _ = session.answer(b"I 1 0", &mut buffer);
        }
        assert_eq!(rt; &buffer[0..11], b"I 1 49 1 -\n".as_slice());
        let _ = session.answer(b"I 1 0", &mut buffer);
        assert_eq!(rt; &buffer[0..11], b"I 1 50 1 A\n".as_slice());
        Ok(())
    }

    // A buffer of 95 bytes is refused, and the line counts.
    #[test]
    fn short_buffer(rt: HostRuntime) -> Result<(), Fail> {
        let mut session = Session::new();
        let mut buffer = [b'.'; 95];
        match session.answer(b"S 2 0", &mut buffer) {
            Ok(_) => return Err(Fail::new("a short buffer was taken")),
            Err(refused) => {
                assert_eq!(rt; refused.line, 1);
                assert_eq!(rt; Refusal::from(refused.fault).cause, 13);
            }
        }
        assert_eq!(rt; buffer, [b'.'; 95]);
        let mut longer = [b'.'; 96];
        assert_eq!(rt; session.answer(b"O 3", &mut longer).unwrap_or(0), 11);
        assert_eq!(rt; &longer[0..11], b"! 23 T 1 2\n".as_slice());
        Ok(())
    }
}

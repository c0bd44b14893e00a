// Tests of the reader and the writer, on records whole and damaged.
#![tactic(auto)]

#[cfg(test)]
mod tests {
    use record::content::{Record, TurnList, Turns};
    use record::reader::read;
    use refusal::Refusal;
    use report::{line, sample};
    use side::{PerSide, Side};
    use std::test::Fail;
    use verdict::{Outcome, Turn, Verdict, standing_number};

    // The number and place of the first fault.
    fn fault_of(bytes: &[u8]) -> Option<(u8, usize)> {
        let fault = read(bytes).err()?;
        Some((fault.number(), fault.place()))
    }

    // The sample with one byte changed.
    fn damaged(place: usize, value: u8) -> Option<(u8, usize)> {
        let mut bytes = sample();
        if let Some(byte) = bytes.get_mut(place) {
            *byte = value;
        }
        fault_of(&bytes)
    }

    #[test]
    fn each_head_field(rt: HostRuntime) {
        let cases: [(usize, u8, usize); 15] = [
            (0, 0x46, 0),
            (1, 0x53, 1),
            (2, 0, 2),
            (2, 2, 2),
            (3, 1, 3),
            (4, 16, 4),
            (4, 1, 5),
            (5, 16, 5),
            (5, 0, 5),
            (6, 33, 6),
            (6, 10, 6),
            (7, 1, 7),
            (8, 0, 8),
            (9, 1, 8),
            (10, 2, 10),
        ];
        for (place, value, at) in cases {
            assert_eq!(rt; damaged(place, value), Some((11, at)));
        }
        assert_eq!(rt; damaged(11, 1), Some((11, 10)));
    }

    #[test]
    fn each_pair(rt: HostRuntime) {
        let cases: [(usize, u8, usize); 12] = [
            (12, 37, 12),
            (15, 255, 12),
            (16, 0, 12),
            (16, 65, 12),
            (19, 255, 12),
            (20, 36, 20),
            (23, 255, 20),
            (24, 13, 20),
            (24, 66, 20),
            (28, 48, 28),
            (32, 7, 28),
            (35, 255, 28),
        ];
        for (place, value, at) in cases {
            assert_eq!(rt; damaged(place, value), Some((12, at)));
        }
        // turns that reach past the end are found at the lefts' pair
        assert_eq!(rt; damaged(24, 18), Some((12, 28)));
    }

    #[test]
    fn each_part(rt: HostRuntime) {
        // the top byte of a reading or a left
        assert_eq!(rt; damaged(42, 6), Some((13, 37)));
        assert_eq!(rt; damaged(48, 255), Some((13, 43)));
        assert_eq!(rt; damaged(52, 0x3c), Some((13, 49)));
        assert_eq!(rt; damaged(56, 255), Some((13, 53)));
        // a text and codes may be anything
        assert_eq!(rt; damaged(36, 255), None);
        assert_eq!(rt; damaged(38, 255), None);
    }

    #[test]
    fn short_inputs(rt: HostRuntime) {
        let bytes = sample();
        assert_eq!(rt; fault_of(&[]), Some((11, 0)));
        assert_eq!(rt; fault_of(&bytes[0..43]), Some((11, 43)));
        assert_eq!(rt; fault_of(&bytes[0..44]), Some((12, 28)));
        assert_eq!(rt; fault_of(&bytes[0..56]), Some((12, 28)));
        assert_eq!(rt; fault_of(&bytes), None);
    }

    #[test]
    fn the_sample(rt: HostRuntime) -> Result<(), Fail> {
        let bytes = sample();
        let Ok(found) = read(&bytes) else {
            return Err(Fail::new("the sample is declined"));
        };
        assert_eq!(rt;
            found.seats,
            PerSide {
                first: 0,
                second: 1,
            }
        );
        assert_eq!(rt; standing_number(found.verdict), 12);
        assert_eq!(rt; found.limit, 10);
        assert_eq!(rt; found.turns.count(), 2);
        assert_eq!(rt;
            found.turns.turn(1),
            Some(Turn {
                code: 33,
                reading: 7,
            })
        );
        assert_eq!(rt; found.turns.turn(2), None);
        assert_eq!(rt;
            found.lefts,
            PerSide {
                first: 995,
                second: 993,
            }
        );
        let mut again = [7u8; 60];
        assert_eq!(rt; found.write(&mut again), Ok(57));
        assert!(rt; again[0] == 0x47 && again[56] == 0 && again[57] == 7);
        Ok(())
    }

    #[test]
    fn longest_and_shortest(rt: HostRuntime) {
        let text = [0x41u8; 64];
        let turns = [Turn {
            code: 65_535,
            reading: 86_400_000,
        }; 256];
        let longest = Record {
            seats: PerSide {
                first: 15,
                second: 0,
            },
            verdict: Some(Verdict::Ruling(Side::Second)),
            limit: 256,
            text: &text,
            turns: TurnList(&turns),
            lefts: PerSide {
                first: 1_000_000_000,
                second: 1,
            },
        };
        let mut bytes = [0u8; 1644];
        assert_eq!(rt; longest.write(&mut bytes), Ok(1644));
        assert_eq!(rt; fault_of(&bytes), None);
        let mut few = [9u8; 1643];
        assert_eq!(rt; longest.write(&mut few), Err(Refusal::Buffer));
        assert!(rt; few[0] == 9 && few[1642] == 9);
        let shortest = Record {
            seats: PerSide {
                first: 0,
                second: 1,
            },
            verdict: None,
            limit: 1,
            text: &text[0..1],
            turns: TurnList(&turns[0..0]),
            lefts: PerSide {
                first: 1,
                second: 1,
            },
        };
        assert_eq!(rt; shortest.length(), Some(45));
        let mut front = [0u8; 45];
        assert_eq!(rt; shortest.write(&mut front), Ok(45));
        assert_eq!(rt; fault_of(&front), None);
    }

    #[test]
    fn each_verdict(rt: HostRuntime) {
        for number in 0..=255u8 {
            let listed = matches!(
                number,
                0 | 11 | 12 | 13 | 21 | 22 | 23 | 31 | 32 | 41 | 42 | 53 | 61 | 62
            );
            assert_eq!(rt; damaged(6, number).is_none(), listed);
        }
        assert_eq!(rt; Verdict::Flag(Outcome::Drawn).number(), 23);
    }

    #[test]
    fn lines(rt: HostRuntime) -> Result<(), Fail> {
        let bytes = sample();
        assert_eq!(rt; line(rt.alloc(), &bytes)?.as_str(), "0 1 12 2 995 993");
        assert_eq!(rt; line(rt.alloc(), &bytes[0..10])?.as_str(), "refused 11 10");
        Ok(())
    }
}

// Nim on examples: heaps at the ends of what is allowed, every code, whole games, copies.
#![tactic(auto)]

#[cfg(test)]
mod tests {
    use nim::Nim;
    use refusal::Refusal;
    use rules::{Rules, Status};
    use side::Side;
    use std::process::Abort;
    use std::test::Fail;

    // A code, whether it is legal, and what holds after it: the status, which sides have a chance, the counters left.
    // Chances are a pair, first's and second's: a `PerSide` at each step would be longer than the step.
    #[derive(Clone, Copy)]
    struct Step(u16, bool, Status, (bool, bool), usize);

    const FIRST_WON: Status = Status::Won(Side::First);

    const SECOND_WON: Status = Status::Won(Side::Second);

    fn holds(game: &Nim, status: Status, chances: (bool, bool), left: usize) -> bool {
        (game.status() == status)
            & (game.chance(Side::First) == chances.0)
            & (game.chance(Side::Second) == chances.1)
            & (game.counters_left() == left)
    }

    fn follow(rt: &impl Abort, game: &mut Nim, steps: &[Step]) {
        for step in steps {
            let Step(code, legal, status, chances, left) = *step;
            assert!(rt; (game.make(code) == legal) & holds(game, status, chances, left));
        }
    }

    fn refused(heaps: &[u8]) -> bool {
        matches!(Nim::new(heaps), Err(Refusal::Setting))
    }

    fn allowed(heaps: &[u8], left: usize) -> bool {
        Nim::new(heaps).is_ok_and(|game| game.counters_left() == left)
    }

    #[test]
    fn heaps_at_the_ends(rt: HostRuntime) {
        assert!(rt;
            allowed(&[1], 1) & allowed(&[31], 31) & allowed(&[1; 8], 8) & allowed(&[31; 8], 248)
        );
        assert!(rt; refused(&[]) & refused(&[1; 9]));
        assert!(rt; refused(&[0]) & refused(&[32]) & refused(&[255]));
        assert!(rt; refused(&[5, 0, 5]) & refused(&[31, 31, 31, 31, 31, 31, 31, 32]));
    }

    #[test]
    fn constants(rt: HostRuntime) {
        assert!(rt; (<Nim as Rules>::CODES == 256) & (<Nim as Rules>::LONGEST == 248));
    }

    // From heaps of 3 and 1 just these four codes are legal, of all 65,536.
    #[test]
    fn every_code(rt: HostRuntime) -> Result<(), Fail> {
        let game = Nim::new(&[3, 1])?;
        for code in 0..=65535u16 {
            let legal = matches!(code, 1 | 2 | 3 | 33);
            assert!(rt; game.copy().make(code) == legal);
        }
        Ok(())
    }

    #[test]
    fn highest_code(rt: HostRuntime) -> Result<(), Fail> {
        let game = Nim::new(&[31; 8])?;
        assert!(rt; game.copy().make(255));
        for code in [0u16, 32, 224, 256, 257, 65534, 65535] {
            assert!(rt; !game.copy().make(code));
        }
        Ok(())
    }

    #[test]
    fn whole_game(rt: HostRuntime) -> Result<(), Fail> {
        let mut game = Nim::new(&[2, 1])?;
        assert!(rt; holds(&game, Status::Open, (true, true), 3));
        // an illegal code changes nothing: take 0, too much, a heap that is not there
        for code in [0u16, 3, 31, 32, 34, 64, 65, 256, 65534, 65535] {
            follow(
                &rt,
                &mut game,
                &[Step(code, false, Status::Open, (true, true), 3)],
            );
        }
        follow(
            &rt,
            &mut game,
            &[
                Step(1, true, Status::Open, (true, false), 2),
                Step(33, true, Status::Open, (true, false), 1),
                Step(1, true, FIRST_WON, (true, false), 0),
            ],
        );
        // after the end nothing is legal
        for code in 0..=65535u16 {
            assert!(rt; !game.make(code));
        }
        game.reset();
        assert!(rt; holds(&game, Status::Open, (true, true), 3));
        follow(
            &rt,
            &mut game,
            &[
                Step(2, true, Status::Open, (false, true), 1),
                Step(33, true, SECOND_WON, (false, true), 0),
            ],
        );
        Ok(())
    }

    // The longest game takes one counter at a time from eight heaps of 31.
    #[test]
    fn longest(rt: HostRuntime) -> Result<(), Fail> {
        let mut game = Nim::new(&[31; 8])?;
        for heap in 0..8u16 {
            for _ in 0..31u16 {
                assert!(rt; (game.status() == Status::Open) & game.make(32 * heap + 1));
            }
        }
        assert!(rt; game.status() == SECOND_WON);
        Ok(())
    }

    #[test]
    fn copy_goes_its_own_way(rt: HostRuntime) -> Result<(), Fail> {
        let mut game = Nim::new(&[2, 2])?;
        follow(
            &rt,
            &mut game,
            &[Step(1, true, Status::Open, (true, true), 3)],
        );
        let mut other = game.copy();
        follow(
            &rt,
            &mut other,
            &[
                Step(34, true, Status::Open, (true, false), 1),
                Step(1, true, FIRST_WON, (true, false), 0),
            ],
        );
        other.reset();
        assert!(rt;
            holds(&other, Status::Open, (true, true), 4)
                & holds(&game, Status::Open, (true, true), 3)
        );
        Ok(())
    }
}

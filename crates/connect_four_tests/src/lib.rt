// Connect Four on whole games: the results were worked out by a program made apart.
#![tactic(auto)]

#[cfg(test)]
mod tests {
    use board::window_count;
    use connect_four::ConnectFour;
    use rules::{Rules, Status};
    use side::Side;
    use std::test::Fail;

    const FIRST: Status = Status::Won(Side::First);

    const SECOND: Status = Status::Won(Side::Second);

    const OPEN: Status = Status::Open;

    const DRAWN: Status = Status::Drawn;

    // A code of a list, by its place, that was illegal.
    #[derive(Clone, Copy, Debug)]
    struct Illegal(usize);

    fn code(digit: u8) -> u16 {
        digit.wrapping_sub(b'0').into()
    }

    // The position after the codes of a text, one digit each.
    fn played(codes: &[u8]) -> Result<ConnectFour, Illegal> {
        let mut game = ConnectFour::new();
        for (i, digit) in codes.iter().enumerate() {
            if !game.make(code(*digit)) {
                return Err(Illegal(i));
            }
        }
        Ok(game)
    }

    // How many codes are legal, of all that there are.
    fn legal_codes(game: &ConnectFour) -> usize {
        (0..=65535u16)
            .filter(|code| game.copy().make(*code))
            .count()
    }

    // Plays games that are written one after another, a blank after each, and looks at the status at each blank.
    // The place where a code is illegal or the status is another one; none where all is as it should be.
    fn first_not(games: &[u8], status: Status) -> Option<usize> {
        let mut game = ConnectFour::new();
        for (i, digit) in games.iter().enumerate() {
            if *digit != b' ' {
                if !game.make(code(*digit)) {
                    return Some(i);
                }
            } else if game.status() == status {
                game.reset();
            } else {
                return Some(i);
            }
        }
        None
    }

    #[test]
    fn begins_open(rt: HostRuntime) {
        let game = ConnectFour::new();
        assert_eq!(rt; game.status(), OPEN);
        assert_eq!(rt; legal_codes(&game), 7);
        assert_eq!(rt; game.stones(Side::First), 0);
        assert_eq!(rt; game.stones(Side::Second), 0);
        assert!(rt; game.chance(Side::First));
        assert!(rt; game.chance(Side::Second));
    }

    #[test]
    fn four_upright_win(rt: HostRuntime) -> Result<(), Fail> {
        assert_eq!(rt; first_not(b"010101 ", OPEN), None);
        assert_eq!(rt; first_not(b"0101010 ", FIRST), None);
        assert_eq!(rt; first_not(b"60101010 ", SECOND), None);
        // nothing is legal after the end
        let game = played(b"0101010")?;
        assert_eq!(rt; legal_codes(&game), 0);
        assert!(rt; game.chance(Side::First));
        Ok(())
    }

    #[test]
    fn a_full_column_is_illegal(rt: HostRuntime) -> Result<(), Fail> {
        let mut game = played(b"00000")?;
        assert_eq!(rt; legal_codes(&game), 7);
        assert!(rt; game.make(0));
        assert_eq!(rt; legal_codes(&game), 6);
        assert!(rt; !game.make(0));
        // refused: nothing has changed, and second is still not to move
        assert_eq!(rt; game.stones(Side::First), 3);
        assert_eq!(rt; game.stones(Side::Second), 3);
        assert!(rt; game.make(1));
        assert_eq!(rt; game.stone_at(1, 0), Some(Side::First));
        Ok(())
    }

    #[test]
    fn codes_past_the_columns_are_illegal(rt: HostRuntime) -> Result<(), Fail> {
        let mut game = played(b"33")?;
        assert!(rt; !(7..=65535u16).any(|code| game.make(code)));
        assert_eq!(rt; game.status(), OPEN);
        assert_eq!(rt; game.stones(Side::First), 1);
        assert_eq!(rt; game.stones(Side::Second), 1);
        Ok(())
    }

    #[test]
    fn stones_fall(rt: HostRuntime) -> Result<(), Fail> {
        let game = played(b"3345")?;
        assert_eq!(rt; game.stone_at(3, 0), Some(Side::First));
        assert_eq!(rt; game.stone_at(3, 1), Some(Side::Second));
        assert_eq!(rt; game.stone_at(4, 0), Some(Side::First));
        assert_eq!(rt; game.stone_at(5, 0), Some(Side::Second));
        assert_eq!(rt; game.stone_at(3, 2), None);
        assert_eq!(rt; game.stone_at(0, 0), None);
        // no such cells, though such bits lie in the word: column 2 row 7 would be column 3 row 0
        assert_eq!(rt; game.stone_at(2, 7), None);
        assert_eq!(rt; game.stone_at(3, 6), None);
        assert_eq!(rt; game.stone_at(7, 0), None);
        assert_eq!(rt; game.stone_at(255, 255), None);
        Ok(())
    }

    #[test]
    fn a_full_board_is_drawn(rt: HostRuntime) -> Result<(), Fail> {
        assert_eq!(rt;
            first_not(b"52016201642662023152604345301561401335345 ", OPEN),
            None
        );
        assert_eq!(rt;
            first_not(
                b"165423233043230340010566066445426251251115 414353315410300544640560110365532622126622 ",
                DRAWN,
            ),
            None
        );
        let game = played(b"520162016426620231526043453015614013353454")?;
        assert_eq!(rt; game.status(), DRAWN);
        assert_eq!(rt; legal_codes(&game), 0);
        assert_eq!(rt; game.stones(Side::First), 21);
        assert_eq!(rt; game.stones(Side::Second), 21);
        assert!(rt; !game.chance(Side::First) && !game.chance(Side::Second));
        Ok(())
    }

    #[test]
    fn the_last_stone_can_win(rt: HostRuntime) {
        assert_eq!(rt;
            first_not(b"120306221520426660435253440464063311155513 ", SECOND),
            None
        );
    }

    #[test]
    fn both_lose_their_chance_before_the_end(rt: HostRuntime) -> Result<(), Fail> {
        let earlier = played(b"16542323304323034001056606644542625125")?;
        assert!(rt; earlier.chance(Side::First) || earlier.chance(Side::Second));
        let game = played(b"165423233043230340010566066445426251251")?;
        assert_eq!(rt; game.status(), OPEN);
        assert!(rt; !game.chance(Side::First));
        assert!(rt; !game.chance(Side::Second));
        Ok(())
    }

    #[test]
    fn a_side_loses_its_chance_alone(rt: HostRuntime) -> Result<(), Fail> {
        // a chance needs no stone of one's own
        let game = played(b"3")?;
        assert!(rt; game.chance(Side::Second));
        let late = played(b"12335104436530014410130103226556")?;
        assert_eq!(rt; late.status(), OPEN);
        assert!(rt; !late.chance(Side::First));
        assert!(rt; late.chance(Side::Second));
        Ok(())
    }

    #[test]
    fn longer_lines_win(rt: HostRuntime) {
        assert_eq!(rt; first_not(b"001122445566 ", OPEN), None);
        // seven, six and five in a row, completed in the middle
        assert_eq!(rt;
            first_not(b"0011224455663 00112244553 001122443 ", FIRST),
            None
        );
    }

    #[test]
    fn two_lines_at_once_win(rt: HostRuntime) {
        assert_eq!(rt;
            first_not(
                b"3421502444663655024601303 5325610532510456166531662330412 00003412164131355245442252210450153 ",
                FIRST,
            ),
            None
        );
        assert_eq!(rt;
            first_not(
                b"0252061022034541553206340463 00345203406621301523346112361154446065 ",
                SECOND,
            ),
            None
        );
    }

    #[test]
    fn lines_reach_the_corners(rt: HostRuntime) {
        // column 0, row 0: level, rising; row 5: level
        assert_eq!(rt;
            first_not(
                b"2604301 00003412164131355245442252210450153 313526146226506612623115150053233454000 ",
                FIRST,
            ),
            None
        );
        // column 0, row 0: upright; row 5: falling, upright
        assert_eq!(rt;
            first_not(
                b"30356064404460 1512132525626366032120000155665140 1033005550206260 ",
                SECOND,
            ),
            None
        );
        // column 6, row 0: level, upright; row 5: upright
        assert_eq!(rt;
            first_not(b"21403166445 40640464616 6156621562506522556 ", FIRST),
            None
        );
        // column 6, row 0: falling; row 5: level, rising
        assert_eq!(rt;
            first_not(
                b"5546353052346115146203 635225526362463055346625243000030444 4146321553115021031602235042642554040666 ",
                SECOND,
            ),
            None
        );
    }

    #[test]
    fn no_line_wraps(rt: HostRuntime) {
        // four stones that lie in line only if a column's top is taken to go on at the bottom of the next
        assert_eq!(rt;
            first_not(
                b"13114240005312612206020 31604662300400655120 031036442252162015011615040 ",
                OPEN,
            ),
            None
        );
        assert_eq!(rt;
            first_not(
                b"640426236552141161102102404420 234233316016262302032564140541 ",
                OPEN,
            ),
            None
        );
        assert_eq!(rt;
            first_not(b"662141021511613025500242 0453604330432362254304 ", OPEN),
            None
        );
    }

    #[test]
    fn copies_go_their_own_way(rt: HostRuntime) -> Result<(), Fail> {
        let mut game = played(b"010101")?;
        let mut copy = game.copy();
        assert!(rt; copy.make(0));
        assert_eq!(rt; copy.status(), FIRST);
        assert_eq!(rt; game.status(), OPEN);
        assert_eq!(rt; game.stone_at(0, 3), None);
        assert!(rt; game.make(6));
        assert_eq!(rt; copy.stone_at(6, 0), None);
        Ok(())
    }

    #[test]
    fn reset_begins_again(rt: HostRuntime) -> Result<(), Fail> {
        let mut game = played(b"0101010")?;
        game.reset();
        assert_eq!(rt; game.status(), OPEN);
        assert_eq!(rt; game.stones(Side::First), 0);
        assert_eq!(rt; game.stones(Side::Second), 0);
        assert!(rt; game.make(4));
        assert_eq!(rt; game.stone_at(4, 0), Some(Side::First));
        Ok(())
    }

    #[test]
    fn constants(rt: HostRuntime) {
        assert_eq!(rt; <ConnectFour as Rules>::CODES, 7);
        assert_eq!(rt; <ConnectFour as Rules>::LONGEST, 42);
        assert_eq!(rt; window_count(7, 6, 4), 69);
        assert_eq!(rt; window_count(15, 15, 5), 572);
        assert_eq!(rt; window_count(3, 3, 4), 0);
        assert_eq!(rt; window_count(255, 255, 1), 260100);
    }
}

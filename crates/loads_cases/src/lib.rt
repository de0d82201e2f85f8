// Loads and chains, run and compared at the edges of their counts.
#![tactic(auto)]

#[cfg(test)]
mod tests {
    use loads::Load;
    use loads::exchange::ExchangeFault;
    use worksheet::equation::Equation;
    use worksheet::fault::{ReplayFault, SwapFault};
    use worksheet::line::Line;
    use worksheet::lines::Lines;
    use worksheet::net::net;

    // Follows a chain by the equations of a book alone.
    fn follow(book: &[Equation], chain: &[i16], load: &Load) -> Result<Load, ReplayFault> {
        let none: [Line; 0] = [];
        let lines = Lines { book, added: &none };
        lines.replay(chain, load)
    }

    // So many of the first article and of the last.
    fn ends(first: u16, last: u16) -> Load {
        Load::from([first, 0, 0, 0, 0, 0, 0, last])
    }

    #[test]
    fn presence_tells_kinds(rt: HostRuntime) {
        assert_eq!(rt; ends(3, 65535).presence(), 129);
        assert_eq!(rt; ends(3, 65535).kinds(), 2);
        assert_eq!(rt; Load::empty().presence(), 0);
        assert_eq!(rt; Load::from([65535; 8]).pieces(), 524280);
    }

    #[test]
    fn containment_and_common_part(rt: HostRuntime) {
        assert!(rt; ends(2, 5).contains(&ends(2, 0)));
        assert!(rt; !ends(2, 5).contains(&ends(3, 0)));
        assert!(rt; ends(2, 5).contains(&Load::empty()));
        assert!(rt; !ends(2, 0).shares(&ends(0, 5)));
        assert!(rt; ends(2, 5).shared(&ends(3, 1)) == ends(2, 1));
    }

    #[test]
    fn an_exchange_fills_a_count_and_not_more(rt: HostRuntime) {
        let full = ends(0, 65535);
        assert!(rt; full.exchange(&ends(0, 1), &ends(1, 1)) == Ok(ends(1, 65535)));
        assert!(rt; full.exchange(&ends(0, 1), &ends(0, 2)) == Err(ExchangeFault::Overflow));
        assert!(rt; full.exchange(&ends(1, 1), &ends(0, 2)) == Err(ExchangeFault::Lacks));
    }

    #[test]
    fn a_chain_ends_or_tells_its_step(rt: HostRuntime) {
        let book = [Equation {
            left: ends(2, 0),
            right: ends(0, 1),
        }];
        assert!(rt; follow(&book, &[1, -1, 1], &ends(3, 0)) == Ok(ends(1, 1)));
        assert_eq!(rt; net(&ends(3, 0), &ends(1, 1))[0], -2);
        let fault = ReplayFault {
            step: 2,
            fault: SwapFault::NoLine,
        };
        assert!(rt; follow(&book, &[1, -32768], &ends(2, 0)) == Err(fault));
    }
}

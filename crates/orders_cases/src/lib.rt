// The orders on worked comparisons, and at counts and weights of 0 and 65,535.
#![tactic(auto)]

#[cfg(test)]
mod tests {
    use loads::Load;
    use orders::bulk::Bulk;
    use orders::listed::Listed;
    use orders::named::{house, report};
    use orders::order::{Order, higher};
    use orders::split::{Marks, Split};
    use orders::weights::{WeightRow, Weights};
    use std::cmp::Ordering;
    use std::process::Abort;

    // A load by its counts of the first three articles, a, b and c.
    fn abc(a: u16, b: u16, c: u16) -> Load {
        Load::from([a, b, c, 0, 0, 0, 0, 0])
    }

    // A load with 65,535 of each article but the last.
    fn full(last: u16) -> Load {
        Load::from([65535, 65535, 65535, 65535, 65535, 65535, 65535, last])
    }

    // The first load is above the second, whichever is asked about first.
    fn ranks<O: Order>(rt: &impl Abort, order: &O, top: Load, low: Load) {
        assert_eq!(rt; order.compare(&top, &low), Ordering::Greater);
        assert_eq!(rt; order.compare(&low, &top), Ordering::Less);
        assert_eq!(rt; order.compare(&top, &top), Ordering::Equal);
        assert!(rt; higher(order, &top, &low));
        assert!(rt; !higher(order, &low, &top));
    }

    #[test]
    fn listed_goes_by_the_first_difference(rt: HostRuntime) {
        ranks(&rt, &Listed, abc(1, 0, 1), abc(0, 2, 0));
        ranks(&rt, &Listed, abc(2, 1, 0), abc(2, 0, 9));
        ranks(&rt, &Listed, abc(1, 0, 0), abc(0, 65535, 65535));
        ranks(&rt, &Listed, full(65535), full(65534));
    }

    #[test]
    fn bulk_goes_by_the_total_and_then_the_last_difference(rt: HostRuntime) {
        ranks(&rt, &Bulk, abc(0, 0, 3), abc(2, 0, 0));
        ranks(&rt, &Bulk, abc(0, 2, 0), abc(1, 0, 1));
        ranks(&rt, &Bulk, abc(1, 0, 0), abc(0, 1, 0));
        ranks(&rt, &Bulk, full(65535), full(65534));
    }

    #[test]
    fn weights_go_by_the_sum_and_then_the_order_below(rt: HostRuntime) {
        let row = WeightRow([3, 2, 1, 0, 0, 0, 0, 65535]);
        let over_listed = Weights { row, below: Listed };
        let over_bulk = Weights { row, below: Bulk };
        ranks(&rt, &over_listed, abc(0, 2, 0), abc(1, 0, 0));
        ranks(&rt, &over_listed, abc(1, 0, 1), abc(0, 2, 0));
        ranks(&rt, &over_bulk, abc(0, 2, 0), abc(1, 0, 1));
        ranks(
            &rt,
            &over_listed,
            Load::from([0, 0, 0, 0, 0, 0, 0, 1]),
            abc(10000, 10000, 10000),
        );
    }

    #[test]
    fn weights_at_their_edges(rt: HostRuntime) {
        let none = Weights {
            row: WeightRow([0; 8]),
            below: Listed,
        };
        let most = Weights {
            row: WeightRow([65535; 8]),
            below: Listed,
        };
        ranks(&rt, &none, abc(1, 0, 0), abc(0, 65535, 65535));
        ranks(&rt, &most, full(65535), full(65534));
        ranks(&rt, &most, abc(1, 0, 0), Load::empty());
    }

    #[test]
    fn split_compares_the_marked_part_first(rt: HostRuntime) {
        let marks = Marks([true, true, false, false, false, false, false, false]);
        let split = Split {
            marks,
            first: Listed,
            second: Bulk,
        };
        ranks(
            &rt,
            &split,
            abc(0, 1, 0),
            Load::from([0, 0, 65535, 65535, 65535, 65535, 65535, 65535]),
        );
        ranks(&rt, &split, abc(1, 0, 1), abc(0, 2, 0));
        ranks(
            &rt,
            &split,
            Load::from([1, 1, 0, 2, 0, 0, 0, 0]),
            Load::from([1, 1, 1, 0, 1, 0, 0, 0]),
        );
    }

    #[test]
    fn split_with_all_or_no_marks_is_one_of_its_orders(rt: HostRuntime) {
        let all = Split {
            marks: Marks([true; 8]),
            first: Listed,
            second: Bulk,
        };
        let none = Split {
            marks: Marks([false; 8]),
            first: Listed,
            second: Bulk,
        };
        ranks(&rt, &all, abc(1, 0, 1), abc(0, 2, 0));
        ranks(&rt, &none, abc(0, 2, 0), abc(1, 0, 1));
    }

    #[test]
    fn report_and_house_part_at_the_same_total(rt: HostRuntime) {
        ranks(&rt, &report(), abc(0, 1, 1), abc(0, 0, 2));
        ranks(&rt, &report(), abc(1, 0, 1), abc(0, 2, 0));
        ranks(&rt, &report(), abc(0, 0, 3), abc(2, 0, 0));
        ranks(&rt, &house(), abc(0, 2, 0), abc(1, 0, 1));
    }
}

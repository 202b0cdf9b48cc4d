//! Tables of counts that cross `minpts`, and of anchors that are offered, and a book that grows.

ghost use Rattle.std.specs.Prelude.{IsSome, IfOk};
ghost use Rattle.std.specs.FinMap as map;

use crate::CountBook;
use std::alloc::{AllocError, Global};
use std::test::Fail;
use vec_record::Number;

// A book with `minpts` 3 that has the number 7 alone.
fn of_one(alloc: Global, count: u32, anchor: Option<Number>) -> Result<CountBook, AllocError>
    ensures { IfOk result (λ book. IsSome (map.get book.rows 7)) }
{
    let mut book = CountBook::new(alloc, 3);
    book.enter(7, count, anchor)?;
    Ok(book)
}

#[test]
fn counts_cross_minpts_and_stop_at_the_ends(rt: HostRuntime) -> Result<(), Fail> {
    // a count; the count after one more and whether it became core; after one less and whether it
    // ceased
    const ROWS: [(u32, u32, bool, u32, bool); 6] = [
        (0, 1, false, 0, false),
        (2, 3, true, 1, false),
        (3, 4, false, 2, true),
        (4, 5, false, 3, false),
        (4_294_967_294, 4_294_967_295, false, 4_294_967_293, false),
        (4_294_967_295, 4_294_967_295, false, 4_294_967_294, false),
    ];
    for row in ROWS {
        let mut more = of_one(rt.alloc(), row.0, None)?;
        assert_eq!(rt; more.is_core(7), row.0 >= 3);
        assert_eq!(rt; more.add_one(7), row.2);
        assert_eq!(rt; more.count_of(7), Some(row.1));
        let mut less = of_one(rt.alloc(), row.0, None)?;
        assert_eq!(rt; less.drop_one(7), row.4);
        assert_eq!(rt; less.count_of(7), Some(row.3));
    }
    Ok(())
}

#[test]
fn the_least_core_offered_is_the_anchor(rt: HostRuntime) -> Result<(), Fail> {
    // a count, the anchor, the core that is offered, and the anchor then
    const ROWS: [(u32, Option<Number>, Number, Option<Number>); 5] = [
        (2, None, 5, Some(5)),
        (2, Some(5), 4, Some(4)),
        (2, Some(5), 6, Some(5)),
        (3, Some(5), 4, Some(5)),
        (3, None, 5, None),
    ];
    for row in ROWS {
        let mut book = of_one(rt.alloc(), row.0, row.1)?;
        book.offer_anchor(7, row.2);
        book.offer_anchor(8, row.2);
        assert_eq!(rt; book.anchor_of(7), row.3);
        assert_eq!(rt; book.anchor_of(8), None);
        book.set_anchor(7, Some(9));
        assert_eq!(rt; book.anchor_of(7), Some(9));
    }
    Ok(())
}

#[test]
fn a_number_leaves_once(rt: HostRuntime) -> Result<(), Fail> {
    let mut book = of_one(rt.alloc(), 3, Some(5))?;
    assert!(rt; !book.leave(8));
    assert!(rt; book.leave(7));
    assert!(rt; !book.leave(7));
    assert_eq!(rt; book.count_of(7), None);
    assert_eq!(rt; book.anchor_of(7), None);
    assert!(rt; !book.is_core(7));
    Ok(())
}

// Enters an absent number with itself as count. False where it is there, or where memory is
// wanting.
fn enter(book: &mut CountBook, number: Number) -> bool {
    match book.count_of(number) {
        Some(_) => false,
        None => book.enter(number, number, None).is_ok(),
    }
}

// Whether the numbers from 1 to the last are there with their counts, and the next one isn't.
fn has_up_to(book: &CountBook, last: Number) -> bool {
    for number in 1..=last {
        if book.count_of(number) != Some(number) {
            return false;
        }
    }
    book.count_of(last.saturating_add(1)).is_none()
}

// Where one request for memory is refused, the number is absent and can be entered again.
#[test]
fn a_book_grows_and_loses_nothing(rt: HostRuntime) -> Result<(), Fail> {
    let mut book = CountBook::new(rt.alloc(), 3);
    for number in 1..60u32 {
        assert!(rt; enter(&mut book, number) || enter(&mut book, number));
        assert!(rt; has_up_to(&book, number));
    }
    Ok(())
}

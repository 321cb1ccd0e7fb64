ghost use Rattle.std.proofs.Math.Seq.{paste};
ghost use Rattle.std.specs.Prelude.{◌+◌, ◌-◌, ◌++◌, length, take, drop, replicate, ◌≡◌, ◌≤◌, ◌==◌, nat_lt, position};
ghost use Rattle.std.specs.List.{list_all, list_any, range_with_len};
ghost use Rattle.sets.specs.Order.{to_front, fresh_order, is_order};

// Where the way stands in the order.
fn place_of(order: &[u8], way: u8) -> Option<usize>
    ensures { result ≡ position (λ w. w == way) order.now }
{
    order.iter().position(|&w| w == way)
}

/// The order with the way moved to the front; an order that lacks the way stays as it is.
#[tactic(auto, unfolding(crate::specs::Order::to_front), using(crate::proofs::OrderLaws::rotated))]
pub fn to_front(order: [u8; 16], way: u8) -> [u8; 16]
    ensures { result ≡ to_front way order }
{
    let mut moved = order;
    if let Some(at) = place_of(&order, way) {
        moved[..at + 1].rotate_right(1);
    }
    moved
}

fn all_below(entries: &[u8], ways: usize) -> bool
    ensures { result ≡ list_all (λ w. nat_lt w ways) entries.now }
{
    entries.iter().all(|&w| (w as usize) < ways)
}

fn has(entries: &[u8], way: usize) -> bool
    ensures { result ≡ list_any (λ w. w == way) entries.now }
{
    entries.iter().any(|&w| w as usize == way)
}

fn has_each(entries: &[u8], ways: usize) -> bool
    ensures { result ≡ list_all (λ way. list_any (λ w. w == way) entries.now) (range_with_len 0 ways) }
{
    (0..ways).all(|way| has(entries, way))
}

/// One set's order, out of the flat storage.
pub fn load_order(flat: &[u8], at: usize, ways: usize) -> [u8; 16]
    requires { (ways ≤ 16) × (at + ways ≤ length flat.now) }
    ensures { result ≡ take ways (drop at flat.now) ++ replicate (16 - ways) 0 }
{
    let mut order = [0; 16];
    order[..ways].copy_from_slice(&flat[at..at + ways]);
    order
}

/// One set's order, back into the flat storage.
pub fn store_order(flat: &mut [u8], at: usize, order: [u8; 16], ways: usize)
    requires { (ways ≤ 16) × (at + ways ≤ length flat.old) }
    ensures { flat.new ≡ paste flat.old at order ways }
{
    flat[at..at + ways].copy_from_slice(&order[..ways]);
}

/// A fresh order: the ways as they count, way 0 in front.
#[tactic(auto, unfolding(crate::specs::Order::fresh_order))]
pub fn fresh_order(ways: usize) -> [u8; 16]
    requires { ways ≤ 16 }
    ensures { result ≡ fresh_order ways }
{
    load_order(
        &[0, 1, 2, 3, 4, 5, 6, 7, 8, 9, 10, 11, 12, 13, 14, 15],
        0,
        ways,
    )
}

/// Whether the first entries are the ways in some order.
#[tactic(auto, unfolding(crate::specs::Order::is_order))]
pub fn is_order(order: [u8; 16], ways: usize) -> bool
    requires { ways ≤ 16 }
    ensures { result ≡ is_order ways order }
{
    let entries = &order[..ways];
    all_below(entries, ways) && has_each(entries, ways)
}

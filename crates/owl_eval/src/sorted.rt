// Lists in rising order, searched by halving.
ghost use Rattle.std.specs.Prelude.{◌≡◌, IsSorted};
ghost use Rattle.std.specs.List.{list_any};

// Whether a list in rising order has an item.
pub(crate) fn has_item<T: Ord>(items: &[T], item: &T) -> bool
    requires { IsSorted T.cmp items.now }
    ensures { result ≡ list_any (λ x. T.eq x item.now) items.now }
{
    items.binary_search(item).is_ok()
}

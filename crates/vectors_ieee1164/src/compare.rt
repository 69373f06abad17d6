use logic::named::Named;
use logic::values::same;

// Whether there is a value, and its name is the published one.
fn is_named<F: Named>(value: Option<F::Value>, published: u8) -> bool {
    value
        .zip(F::of_name(&[published]))
        .is_some_and(|(a, b)| same::<F>(a, b))
}

// How many entries of a published table name the value that belongs at their place.
fn agreeing<F: Named, V: Fn(u16) -> Option<F::Value>>(table: &[u8], value_at: V) -> usize
    requires { V.IsAlwaysCallable value_at }
{
    (0u16..1024)
        .zip(table)
        .filter(|(place, published)| is_named::<F>(value_at(*place), **published))
        .count()
}

// The entries of a table of one operand that agree; its places are the codes.
pub(crate) fn agreeing_at_codes<F: Named, O: Fn(F::Value) -> F::Value>(
    table: &[u8; 9],
    operation: O,
) -> usize
    requires { O.IsAlwaysCallable operation }
{
    agreeing::<F, _>(table, |place| F::of_code(place).map(|a| operation(a)))
}

// The entries of a table of two operands that agree; its rows and columns are the codes.
pub(crate) fn agreeing_at_pairs<F: Named, O: Fn(F::Value, F::Value) -> F::Value>(
    table: &[u8; 81],
    operation: O,
) -> usize
    requires { O.IsAlwaysCallable operation }
{
    agreeing::<F, _>(table, |place| {
        let row = F::of_code(place / 9);
        let column = F::of_code(place % 9);
        row.zip(column).map(|(a, b)| operation(a, b))
    })
}

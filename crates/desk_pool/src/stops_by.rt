ghost use Rattle.atomic_table.specs.Seated.{TableId};

/// A job that ends early only after a stop flag was raised. Contracts see which flag it is.
pub trait StopsBy {
    ghost flag: { Self → TableId };
}

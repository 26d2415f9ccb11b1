// What is left of an allowance after each element of a list has taken its part. Nothing is summed, so nothing can wrap.
ghost use Rattle.std.specs.Prelude.{ℕ};
ghost use Rattle.model.specs.Refusal.{total};
ghost use Rattle.checks.specs.Measured.{Spent};

// What has parts.
pub(crate) trait Parts {
    ghost parts: { Self → ℕ };

    // What is left of an allowance, none where it has more parts.
    fn pay(&self, left: usize) -> Option<usize>
        ensures { Spent (parts self.now) left result };
}

// What is left after all. Written out once, since `try_fold` would want a lemma at each use.
pub(crate) fn pay_all<X: Parts>(elements: &[X], mut left: usize) -> Option<usize>
    ensures { Spent (total X.parts elements.now) left result }
{
    for element in elements {
        left = element.pay(left)?;
    }
    Some(left)
}

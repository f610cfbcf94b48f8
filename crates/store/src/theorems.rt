// An example that is proved: the contract is the theorem, and the function only carries it.
ghost use Rattle.store.specs.Worked.{Worked};

/// Two pushes, an inject beside the second and a pop: what they answer, and the lists.
pub fn worked_example()
    ensures { Worked }
{}

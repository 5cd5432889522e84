// Laws over all modules. No function here computes anything: the contract is what counts.
ghost use Rattle.grammar.specs.Laws.{Agree, Completable, GoesOn, ItemsApart};

// The reader's states allow exactly the modules that the table of parts allows.
pub fn table_is_read() -> u8
    ensures { Agree }
{
    0
}

// In every state some part may follow, unless the form is at its end, and some parts lead to its end.
pub fn states_can_end() -> u8
    ensures follows { GoesOn }
    ensures ends { Completable }
    ensures apart { ItemsApart }
{
    0
}

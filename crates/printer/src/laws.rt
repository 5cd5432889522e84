// Laws of the printed text.
ghost use Rattle.printer.specs.Told.{Injective};

// No two modules print alike.
pub fn printed_alike_is_alike() -> u8
    ensures { Injective }
{
    0
}

// One port's multiplexer.
ghost use Rattle.std.specs.Prelude.{◌≡◌};
ghost use Rattle.multiplexer.specs.Choose.{choose_of};
ghost use Rattle.multiplexer.specs.Count.{count_of, end_frame_of};
ghost use Rattle.records.specs.Records.{choice_record, choice_in};

use multiplexer::Multiplexer;
use records::ChoiceRecord;

#[unsafe(no_mangle)]
pub extern "C" fn gambyre_choose(
    multiplexer: Multiplexer,
    rates: &[u16],
    frame: u32,
    slot: u32,
) -> ChoiceRecord
    ensures { result ≡ choice_record (choose_of rates.now multiplexer.served frame slot) }
{
    ChoiceRecord::from(multiplexer.choose(rates, frame, slot))
}

#[unsafe(no_mangle)]
pub extern "C" fn gambyre_count(multiplexer: Multiplexer, choice: ChoiceRecord) -> Multiplexer
    ensures { result ≡ count_of multiplexer (choice_in choice) }
{
    multiplexer.count(Option::from(choice))
}

#[unsafe(no_mangle)]
pub extern "C" fn gambyre_end_frame(multiplexer: Multiplexer, n: usize) -> Multiplexer
    ensures { result ≡ end_frame_of multiplexer n }
{
    multiplexer.end_frame(n)
}

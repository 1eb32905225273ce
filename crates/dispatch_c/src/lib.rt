// The archive of four venues behind one line for a host in C: each of its calls in the crate dispatch under its own name.
#![tactic(auto)]

ghost use Rattle.std.specs.Prelude.{◌≡◌, length};
ghost use Rattle.dispatch.specs.Hosts.{reply_of, fresh_held, arrive_held, turn_held, told_of, host_turn};

// The first layer of a host's memory. A memory of another length can hold none.
#[unsafe(no_mangle)]
pub extern "C" fn legging_layer_fresh(layer: &mut [u8]) -> u8
    ensures { reply_of result layer.new ≡ fresh_held layer.old }
{
    dispatch::legging_layer_fresh(layer)
}

// An arrival.
#[unsafe(no_mangle)]
pub extern "C" fn legging_arrive(layer: &mut [u8], venue: u32, message: &[u8]) -> u8
    ensures { reply_of result layer.new ≡ arrive_held layer.old venue message.now }
{
    dispatch::legging_arrive(layer, venue, message)
}

// A turn: its number, and 256 times the venue served.
#[unsafe(no_mangle)]
pub extern "C" fn legging_turn(layer: &mut [u8], report: &mut [u8]) -> u32
    ensures { told_of result layer.new report.new ≡ host_turn (turn_held layer.old (length report.old)) }
{
    dispatch::legging_turn(layer, report)
}

// What the partition servers, C programs, call: the check of a lone picture, from its bytes to the number of the refusal.
#![tactic(auto)]

ghost use Rattle.std.specs.Prelude.{◌≡◌};
ghost use Rattle.protocol.specs.Elements.{refusal_number};
ghost use Rattle.picture.specs.Lone.{lone};

use numbers::refusal_number;
use protocol::Refusal;

#[unsafe(no_mangle)]
pub extern "C" fn picture_check(bytes: &[u8]) -> u32
    ensures { result ≡ refusal_number (lone bytes.now) }
{
    match reading::lone::check(bytes) {
        Ok(()) => refusal_number(Refusal::Accepted),
        Err(why) => refusal_number(why),
    }
}

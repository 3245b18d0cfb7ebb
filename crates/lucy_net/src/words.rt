ghost use Rattle.std.specs.Prelude.{All};
ghost use Rattle.lucy_word.specs.Stored.{IsStored};
ghost use Rattle.lucy_net.specs.Words.{net_words};

use crate::net::Net;
use lucy_word::words_are_stored;

/// All firing, write and read words of a net are what every word in memory is: each has a period with a one.
pub fn net_words_are_stored(net: &Net)
    ensures { All IsStored (net_words net.now) }
{
    'actors: for actor in net.actors.list() {
        words_are_stored(&actor.firing);
    }
    'rings: for ring in net.rings.list() {
        words_are_stored(&ring.write);
        words_are_stored(&ring.read);
    }
}

//! The laws of grey work buffers with room. The functions do nothing; what they ensure is proved.

ghost use Rattle.gh_room.specs.Room.{BuffersHaveRoom};
ghost use Rattle.gh_room.specs.Rounds.{SearchesAloneFind};

use gh_base::Held;
use gh_base::laws::steps_are_folded;
use gh_wbuf::FindRoom;

/// Where the entries of all buffers name heap words, none twice, and each seat holds one buffer at most, there is a buffer
/// that nobody holds into which two entries more go.
pub fn some_buffer_has_room()
    ensures { BuffersHaveRoom }
{}

/// Where a buffer has room and nobody holds it, and no other actor's step lies between, a search for room takes a buffer:
/// from whichever one it looks on, after a load for each buffer at the most, and a swap.
pub fn searches_alone_find()
    ensures { SearchesAloneFind }
{
    steps_are_folded::<FindRoom, Held>();
}

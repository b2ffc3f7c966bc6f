//! That there is always a grey work buffer with room.
//!
//! A search for room goes from buffer to buffer until it takes one that nobody holds and into which two entries more go. There
//! is one at every moment, whatever the actors do. While no cycle is marked all are empty, and nobody holds one. While one is,
//! an object is an entry of one buffer at most and begins at a heap word of its own, each actor holds one buffer at most, and
//! there are more buffers than that can fill or hold (`gh_room`). A search that no other actor's step disturbs takes one within
//! one round (`searches_alone_find`). So where a search passes all buffers and takes none, others have stepped meanwhile: a
//! load, and a swap that finds another word, leave all words as they are.

ghost use Rattle.gh_law.specs.Room.{EveryListHasRoom, SearchesPassBesideOthers};

use crate::actors::every_list_of_actors_stands;
use gh_room::laws::some_buffer_has_room;

/// After every legal list of steps of all actors, in every order, there is a grey work buffer that nobody holds and that has at
/// most 251 of its 253 entries. And where an actor's entries since some moment are loads of buffers' words and swaps that
/// lost a buffer, and it has so gone on from each buffer, an entry of another actor stands among them.
pub fn every_list_has_room()
    ensures room { EveryListHasRoom }
    ensures searches { SearchesPassBesideOthers }
{
    every_list_of_actors_stands();
    some_buffer_has_room();
}

//! Room for an entry, by the slots of a directory that are met one at a time.

ghost use Rattle.laws_midway.specs.RoomLaws.{FoundRoomStays, MostWordsGoOn, RoomGoesOn, RoomIsFoundInARun, RowIsShort};

/// The most free words in a row among one slot more follow from those before it and the row that it ends.
pub fn most_words_go_on()
    ensures { MostWordsGoOn }
{}

/// A room that was found among the first slots is the room among all.
pub fn found_room_stays()
    ensures { FoundRoomStays }
{}

/// Where none was found, the row at the end and the next slots decide.
pub fn room_goes_on()
    ensures { RoomGoesOn }
{}

/// Where none was found, the row at the end has fewer words than are asked for.
pub fn row_is_short()
    ensures { RowIsShort }
{}

/// A room for 1 to 512 words is found if and only if so many words are free in a row.
pub fn room_is_found_in_a_run()
    ensures { RoomIsFoundInARun }
{}

// What adopting and handing over guarantee, as the contracts of functions that do nothing.
ghost use Rattle.orders.specs.Laws.{Relation, Admissible};
ghost use Rattle.adoption.specs.Theorems.{AcceptedIsSound, SameRelation, WhatSettledIsAccepted, AdoptedIsWhatTheFileHas};

// The table of an adopted file decides the book, and its worksheet shows why.
pub fn accepted_is_sound()
    ensures { (above : Relation) → Admissible above → AcceptedIsSound above }
{}

// A settled register's file is adopted by every open register with its book, under the same relation.
pub fn settled_is_accepted()
    ensures { (above above' : Relation) → Admissible above → SameRelation above above' → WhatSettledIsAccepted above above' }
{}

// An adopted file is written again as it was.
pub fn adopted_is_the_file()
    ensures { (above : Relation) → AdoptedIsWhatTheFileHas above }
{}

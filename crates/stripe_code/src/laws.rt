//! What is true of rounds. The function stands for the law that its contract states; a call of it does
//! nothing.
ghost use Rattle.stripe_code.specs.WhatWasCut.{ReadsWhatWasCut};

/// What a round reads is the text that was cut, where all fragments that count are of one text.
pub fn rounds_read_what_was_cut()
    ensures { ReadsWhatWasCut }
{}

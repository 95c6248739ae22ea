ghost use Rattle.tm_programs.specs.Calls.{CallsStay};
ghost use Rattle.tm_programs.specs.Instructions.{ProgramsAreSpelled};
ghost use Rattle.tm_programs.specs.BlockLaws.{IfsUnfold, RepeatsUnfold, RestsAreSettled, WhilesUnfold};

/// A program is spelled by its instructions, and by no others that are nested.
pub fn programs_are_spelled()
    ensures { ProgramsAreSpelled }
{}

/// What is left of a program has no other calls than the program.
pub fn calls_stay()
    ensures { CallsStay }
{}

/// A loop is its body and the loop again, as long as it goes on, and an `if` is its body and what follows.
pub fn blocks_unfold()
    ensures repeats { RepeatsUnfold }
    ensures whiles { WhilesUnfold }
    ensures ifs { IfsUnfold }
{}

/// What is left once the local instructions before the first call are done begins with a call, or is over.
pub fn rests_are_settled()
    ensures { RestsAreSettled }
{}

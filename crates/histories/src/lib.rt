// Worked histories from a factory record, byte for byte, the wrong cards that they tell apart, and witnesses that the laws speak of something.
#![tactic(auto)]

ghost use Rattle.histories.specs.Wrong.{ShutOut};
ghost use Rattle.histories.specs.Worked.{Worked, WorkedLocking};
ghost use Rattle.histories.specs.Edges.{Edges};
ghost use Rattle.histories.specs.Parameters.{Parameters};
ghost use Rattle.histories.specs.Speaks.{SecrecySpeaks, TransactionsSpeak};

// Every number, byte and ruling that comes back in a dozen short histories.
pub fn law_worked()
    ensures { Worked × WorkedLocking }
{}

// The same at the edges: numbers, the last TSN, reverts, TPER_RESET, the media, hidden columns, cells judged together.
pub fn law_edges()
    ensures { Edges }
{}

// The same for parameters: parts left out, the largest numbers, sets, what is too much, given twice or out of order, empty tokens.
pub fn law_parameters_worked()
    ensures { Parameters }
{}

// Each wrong card that document 01 shuts out by name is told apart by a run.
pub fn law_shut_out()
    ensures { ShutOut }
{}

// Two cards with different PINs meet all that secrecy supposes.
pub fn law_secrecy_speaks()
    ensures { SecrecySpeaks }
{}

// A transaction in which a table and a PIN change can be committed and abandoned.
pub fn law_transactions_speak()
    ensures { TransactionsSpeak }
{}

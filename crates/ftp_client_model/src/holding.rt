//! How much a client holds: functions that do nothing, whose contracts are laws.
ghost use Rattle.ftp_client_model.specs.Laws.{CallsStayFit, FitHoldsLittle, StartIsFit};
ghost use Rattle.ftp_client_model.specs.Losses.{NearStaysFit};
ghost use Rattle.ftp_client_model.specs.Held.{ClientHoldsLittle};

/// Whatever is called, a client never holds more than 24,576 octets, beside the texts of an operation and what its report brings, where of a
/// transfer it stores at most 8,216 of them: at most one command is owed behind what may stand when an octet is heard.
pub fn clients_hold_little()
    // Witness of start: a client at its start, to what is fit.
    ensures start { StartIsFit }
    // Witness of calls: a fit client and any call of it, to a fit client.
    ensures calls { CallsStayFit }
    // Witness of held: a fit client, to how much it holds.
    ensures held { FitHoldsLittle }
    // Witness of always: any list of calls from the start, to how much is held after it.
    ensures always { ClientHoldsLittle }
{}

/// Whoever keeps the clauses of `Near` stays fit with each call, where a growth is refused too.
pub fn clients_stay_fit()
    // Witness: each clause of `Near`, of a fit client, to a fit client, whatever was refused.
    ensures { NearStaysFit }
{}

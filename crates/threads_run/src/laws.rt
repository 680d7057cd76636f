//! Laws of the text of a threads script, and of what a run writes. No code: each contract states something
//! of definitions.

ghost use Rattle.threads_run.specs.Laws.{ADoneRunWroteATextOfItsScript, AFailedRunWroteABeginning};
ghost use Rattle.threads_run.specs.Laws.{AFaultHasOneAnswer, ARecordIsOneMessage};
ghost use Rattle.threads_run.specs.Laws.{ARefusedRunWroteTheFault, AScriptWithoutFaultIsNotRefused};
ghost use Rattle.threads_run.specs.Laws.{EachAuditIsOk, EachRecordHasALine};
ghost use Rattle.threads_run.specs.Laws.{EachTextIsOfOneHistory, EachTextWentByItsInboxes};
ghost use Rattle.threads_run.specs.Laws.{EachWorkerTookAll};
ghost use Rattle.threads_run.specs.Laws.{OneProxyHasItsLines};
ghost use Rattle.threads_run.specs.Laws.{OtherRunsWriteNothing};
ghost use Rattle.threads_run.specs.Laws.{WithoutProxiesThereAreNoLines};

/// Each audit of a text says `ok`. The history of a text has no record without a line, all of the text is of it,
/// and its run went by its inboxes. Where there are no proxies, a text has no lines; one proxy has its own.
pub fn all_lines_law()
    ensures audits { EachAuditIsOk }
    ensures records { EachRecordHasALine }
    ensures history { EachTextIsOfOneHistory }
    ensures inboxes { EachTextWentByItsInboxes }
    ensures no_proxies { WithoutProxiesThereAreNoLines }
    ensures one_proxy { OneProxyHasItsLines }
{}

/// Of a run that goes by its inboxes each worker took of each proxy one request for each of its records, and
/// its End: not fewer, not more, and nothing else in their place. No worker was closed.
pub fn all_messages_delivered_law()
    ensures taken { EachWorkerTookAll }
    ensures message { ARecordIsOneMessage }
{}

/// A fault is answered by its own line, with its own status, and a script without a fault by no refusal.
pub fn fault_answered_by_line_law()
    ensures fault { AFaultHasOneAnswer }
    ensures no_fault { AScriptWithoutFaultIsNotRefused }
{}

/// What a run wrote that changed its sink: a text of its script, the line of the script's fault, or a
/// beginning of one of these.
pub fn written_from_text_law()
    ensures done { ADoneRunWroteATextOfItsScript }
    ensures refused { ARefusedRunWroteTheFault }
    ensures failed { AFailedRunWroteABeginning }
    ensures others { OtherRunsWriteNothing }
{}

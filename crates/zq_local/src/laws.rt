//! What holds of a gateway whose faces are an asker and storages.
ghost use Rattle.zq_local.specs.Serving.{AsksFirst, AsksPicked, JoinsOthers};

/// A request of the asker on a key is handed to the storages that its target picks, in their order.
pub fn asks_picked()
    ensures { AsksPicked }
{}

/// A new gateway has its asker alone.
pub fn asks_first()
    ensures { AsksFirst }
{}

/// A storage joins the others: its opening and its declaration are accepted.
pub fn joins_others()
    ensures { JoinsOthers }
{}

ghost use Rattle.jm_record.specs.Laws.{NoPrefix, OneMessage};

/// No message's record is a proper prefix of another's.
pub fn law_no_prefix()
    ensures { NoPrefix }
{}

/// Two messages that differ in more than their read-only marks have different records.
pub fn law_one_message()
    ensures { OneMessage }
{}

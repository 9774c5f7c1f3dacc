ghost use Rattle.std.specs.Prelude.{IfSome};
ghost use Rattle.jm_format.specs.Format as format;
ghost use Rattle.jm_format.specs.Messages.{IsSender, IsName, IsText, IsBody, AreProperties};
ghost use Rattle.jm_format.specs.Reading as rule;
ghost use Rattle.jm_reading.specs.Exact.{IsRead};

/// The rule of each part of a message reads exactly its values, by their fields.
pub fn law_parts()
    ensures sender { IsRead IsSender format.sender_fields rule.sender }
    ensures destination { IsRead (λ destination. IsName (format.name_of destination)) format.destination_fields rule.destination }
    ensures text { IsRead (λ text. IfSome text IsText) format.optional rule.optional_text }
    ensures body { IsRead IsBody format.body_fields rule.body }
    ensures properties { IsRead AreProperties format.table_fields rule.properties }
{}

ghost use Rattle.ris_safe.specs.Laws.{SafeIsHarmless};

/// A safe update changes no value, leaves right forests right, and makes no visit.
pub fn safe_law()
    ensures { SafeIsHarmless }
{}

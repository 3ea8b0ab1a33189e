// Laws of the definitions, each on a function that does nothing.
ghost use Rattle.script_run.specs.Rules.{IsLawful};
ghost use Rattle.run_rules.specs.PoolRules.{pool_rules};
ghost use Rattle.run_rules.specs.WireRules.{wire_rules};

/// Bytes give no more commands than they are, and first those that fewer of them give; a reply is one refusal at most; and what is
/// counted and posted for commands one after the other is counted and posted for all of them.
pub fn a_pool_is_lawful()
    ensures { IsLawful pool_rules }
{}

/// Bytes give no more lines than they are, and first those that fewer of them give; and a reply is one refusal at most.
pub fn a_wire_is_lawful()
    ensures { IsLawful wire_rules }
{}

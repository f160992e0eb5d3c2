// Laws of certificates and of thresholds. Each function does nothing; its contract is the law.
ghost use Rattle.std.specs.Prelude.{ℕ, List};
ghost use Rattle.plan_types.specs.declared.action.Action.{Action};
ghost use Rattle.level_book.specs.Prelude.{BookCosts};
ghost use Rattle.cert_text.specs.declared.certificate.Certificate.{Certificate};
ghost use Rattle.bound_cert.specs.Laws.{AcceptedOrRefused, PlanHasThreshold};

/// For a valid list a certificate is accepted, or there is a first reason why it isn't.
pub fn accepted_or_refused()
    ensures { (list : List Action) (steps : ℕ) (book : BookCosts) (certificate : Certificate) → AcceptedOrRefused list steps book certificate }
{}

/// A planned multistage list has a threshold.
pub fn plans_have_thresholds()
    ensures { (steps : ℕ) (book : BookCosts) (list : List Action) → PlanHasThreshold steps book list }
{}

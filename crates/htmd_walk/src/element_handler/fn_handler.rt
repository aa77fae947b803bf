//! Handlers of closures.

ghost use Rattle.std.specs.Prelude.{◌≡◌, Option, IfOk};
ghost use Rattle.htmd_walk.specs.Handling.{ElementView, ResultView, PlanView, IsProper};
ghost use Rattle.htmd_walk.specs.Closures.{PlansAs, PlansBelow, FinishesAs, rule_of, planner_of, finisher_of};
ghost use Rattle.htmd_walk.specs.Views.{plan_view, element_view, result_view, optional_result};

use super::{Element, HandlerResult, Plan};
use std::alloc::{AllocError, Global};

/// Names what the two closures of an `FnHandler` mean. It has only definitions: a type without fields will do, or one
/// whose fields the definitions read.
pub trait HandlerRule {
    /// What the handler needs.
    ghost rule_plan: { Self → ElementView → PlanView };

    /// What it makes of the content that it needs.
    ghost rule_finish: { Self → ElementView → ResultView → Option ResultView };
}

/// A handler of two closures, which return what the rule names. It puts nothing after a conversion.
/// `HtmlToMarkdownBuilder::add_fn_handler` takes it.
#[derive(Drop)]
pub struct FnHandler<M, P, F> {
    pub(crate) rule: M,
    pub(crate) plan: P,
    pub(crate) finish: F,
}

impl<M, P, F> FnHandler<M, P, F> {
    /// The handler of these closures. What they must answer is required where it is registered.
    pub fn new(rule: M, plan: P, finish: F) -> Self
        ensures rule { rule_of result ≡ rule }
        ensures plan { planner_of result ≡ plan }
        ensures finish { finisher_of result ≡ finish }
    {
        FnHandler { rule, plan, finish }
    }
}

/// A handler that may or may not keep its interface, and says what it means if it does.
pub trait Answering {
    /// What it needs.
    ghost plan_named: { Self → ElementView → PlanView };

    /// What it makes of the content that it needs.
    ghost finish_named: { Self → ElementView → ResultView → Option ResultView };

    /// It keeps its interface.
    ghost keeps: { Self → Type 0 };

    /// What it needs. `Err` means out of memory.
    fn plan(&self, alloc: Global, element: &Element) -> Result<Plan, AllocError>
        requires { keeps self.now }
        ensures plan { IfOk result (λ p. plan_view p ≡ plan_named self.now (element_view element.now)) }
        ensures proper { IfOk result (λ p. IsProper (element_view element.now).items element.now.node (plan_view p)) };

    /// The result from the content that the plan needs, or nothing. `Err` means out of memory.
    fn finish(
        &self,
        alloc: Global,
        element: &Element,
        content: HandlerResult,
    ) -> Result<Option<HandlerResult>, AllocError>
        requires { keeps self.now }
        ensures { IfOk result
            (λ r. optional_result r ≡ finish_named self.now (element_view element.now) (result_view content)) };
}

impl<
    M: HandlerRule,
    P: Fn(Global, &Element) -> Result<Plan, AllocError>,
    F: Fn(Global, &Element, HandlerResult) -> Result<Option<HandlerResult>, AllocError>,
> Answering for FnHandler<M, P, F> {
    ghost plan_named = { λ h. M.rule_plan (rule_of h) };

    ghost finish_named = { λ h. M.rule_finish (rule_of h) };

    ghost keeps = { λ h. P.IsAlwaysCallable (planner_of h)
        × F.IsAlwaysCallable (finisher_of h)
        × PlansAs (M.rule_plan (rule_of h)) (P.post (planner_of h))
        × PlansBelow (P.post (planner_of h))
        × FinishesAs (M.rule_finish (rule_of h)) (F.post (finisher_of h)) };

    fn plan(&self, alloc: Global, element: &Element) -> Result<Plan, AllocError> {
        (self.plan)(alloc, element)
    }

    fn finish(
        &self,
        alloc: Global,
        element: &Element,
        content: HandlerResult,
    ) -> Result<Option<HandlerResult>, AllocError> {
        (self.finish)(alloc, element, content)
    }
}

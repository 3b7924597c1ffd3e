ghost use Rattle.script_types.specs.Typing.{typed_as};
ghost use Rattle.script_types.specs.inside.Scopes.{GivesKind, scope_of};

use crate::call::call;
use crate::end::KindEnd;
use crate::scope::Scope;
use crate::table::first_role;
use crate::typed::{Typed, UsedAs};
use script_syntax::Expr;
use std::alloc::Global;

/// What an expression is at its place, or its first fault in post-order. `is_whole` says that it is a whole right side.
pub fn typed_as(
    alloc: Global,
    scope: &Scope<'_>,
    expr: &Expr,
    is_whole: bool,
    role: UsedAs,
) -> Result<Typed, KindEnd>
    ensures { GivesKind result (typed_as (scope_of scope.now) expr.now is_whole role) }
{
    match expr {
        Expr::Name(name) => scope.name(alloc, name.bytes(), role),
        Expr::Number(text) => Ok(Typed::Literal(text.twin(alloc)?)),
        Expr::Call { word, args } => {
            let mut found = Vec::new(alloc);
            let mut asked = first_role(word.bytes(), args.len());
            for arg in args.as_slice() {
                let typed = typed_as(alloc, scope, arg, false, asked)?;
                found.push(typed)?;
                asked = UsedAs::Grid;
            }
            call(alloc, scope.section, is_whole, word.bytes(), found)
        }
    }
}

// `helper_load` (src/common/helper_loader.rs).
#![tactic(auto)]

ghost use Rattle.std.specs.Prelude.{◌≡◌};
ghost use Rattle.scoping.specs.Changes.{in_symbols};
ghost use Rattle.helper_loader.specs.Load.{loading, helper_flags, make_helper_f, load_runtime_f, helper_load_f};

use meaning::{ScopeId, SymbolId, known_name, mode, symbol_flag};
use scoping::Ctx;

// The counters, the form and the symbol of a Load, and whether it is the walk's first, which the clause of `helper_load` tells (`loading`).
#[derive(Clone, Copy)]
pub struct Loaded {
    pub ctx: Ctx,
    pub form: u16,
    pub symbol: SymbolId,
    pub first: bool,
}

// An import in a module, a var elsewhere.
fn helper_flags(esm: u16) -> u16
    ensures { result ≡ helper_flags esm }
{
    if esm == 1 {
        symbol_flag::IMPORT
    } else {
        symbol_flag::FUNCTION_SCOPED
    }
}

// One symbol on `using_ctx` in scope 1.
#[tactic(auto, unfolding(crate::specs::Load::make_helper_f))]
fn make_helper(symbols: &mut [u16], ctx: Ctx) -> Ctx
    ensures { in_symbols symbols.new result ≡ make_helper_f (in_symbols symbols.old ctx) }
{
    let flags = helper_flags(ctx.esm);
    let made = scoping::create_symbol(
        symbols,
        ctx,
        known_name::USING_CTX,
        flags,
        ScopeId(scoping::ROOT),
        1,
    );
    made.with_helper(SymbolId(made.symbols))
}

// Runtime: the first load makes the helper's symbol, later ones read it.
#[tactic(auto, unfolding(crate::specs::Load::load_runtime_f))]
fn load_runtime(symbols: &mut [u16], ctx: Ctx) -> Ctx
    ensures { in_symbols symbols.new result ≡ load_runtime_f (in_symbols symbols.old ctx) }
{
    if ctx.helper.0 == 0 {
        make_helper(symbols, ctx)
    } else {
        ctx
    }
}

// The Load of a context. Runtime: the helper's symbol; else: the symbol of `babelHelpers` seen from the current scope, or 0, the number
// that the Load's row has for none.
#[tactic(auto, unfolding(crate::specs::Load::helper_load_f))]
pub fn helper_load(scopes: &[u16], symbols: &mut [u16], ctx: Ctx, cur: ScopeId) -> Loaded
    ensures { loading symbols.new result ≡ helper_load_f scopes.now (in_symbols symbols.old ctx) cur.0 }
{
    // The walk made no load before this one: its context, which is counted already, is the only one.
    let first = ctx.contexts <= 1;
    if ctx.mode == mode::RUNTIME {
        let loaded = load_runtime(symbols, ctx);
        Loaded {
            ctx: loaded,
            form: mode::RUNTIME,
            symbol: loaded.helper,
            first,
        }
    } else {
        Loaded {
            ctx,
            form: mode::EXTERNAL,
            symbol: scoping::find_binding(scopes, symbols, ctx, cur, known_name::BABEL_HELPERS),
            first,
        }
    }
}

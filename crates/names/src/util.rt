// Names of hooks that React has, and what names begin with or contain.
ghost use Rattle.std.specs.Prelude.{◌≡◌};
ghost use Rattle.names.specs.Names.{among, builtins, upper};

// The hooks that React has of its own.
const BUILTIN_HOOKS: [&[u8]; 10] = [
    b"useState",
    b"useReducer",
    b"useEffect",
    b"useLayoutEffect",
    b"useMemo",
    b"useCallback",
    b"useRef",
    b"useContext",
    b"useImperativeHandle",
    b"useDebugValue",
];

// Whether a hook is one of React's own.
pub fn is_builtin_hook(name: &[u8]) -> bool
    ensures { result ≡ among name.now builtins }
{
    BUILTIN_HOOKS.contains(&name)
}

// Whether a name begins with A to Z.
pub fn begins_upper(name: &[u8]) -> bool
    ensures { result ≡ upper name.now }
{
    matches!(name, [b'A'..=b'Z', ..])
}

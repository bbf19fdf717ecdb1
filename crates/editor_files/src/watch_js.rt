// client/watch.js. tools/client --write wrote this.
ghost use Rattle.std.specs.Prelude.{◌≡◌};
ghost use Rattle.editor_files.specs.WatchJs.{watch_js};

#[tactic(auto, unfolding(crate::specs::WatchJs::watch_js))]
pub(crate) fn text() -> &'static str
    ensures { result.now ≡ watch_js }
{
    "// Reads something again and again: every 5 seconds, or ten times as long as the last reading took, never while the page is hidden.\n\nconst [LEAST_PAUSE, PAUSES] = [5000, 10];\n\n// Calls `received` with each reading, or `lost` with the error, which tells whether to go on. Returns what ends the watch.\nexport function watch(read, received, lost) {\n    const state = { timer: null, isEnded: false, isReading: false, pause: LEAST_PAUSE, due: performance.now() + LEAST_PAUSE };\n    const turn = async () => {\n        state.isReading = true;\n        const begun = performance.now();\n        const goesOn = await read().then(async (reading) => {\n            state.pause = Math.max(LEAST_PAUSE, PAUSES * (performance.now() - begun));\n            if (!state.isEnded) { await received(reading); }\n            return true;\n        }).catch((error) => state.isEnded || lost(error));\n        Object.assign(state, { isReading: false, isEnded: state.isEnded || !goesOn, due: performance.now() + state.pause });\n        wait();\n    };\n    const wait = () => {\n        clearTimeout(state.timer);\n        if (!state.isEnded && !state.isReading && !document.hidden) { state.timer = setTimeout(turn, state.due - performance.now()); }\n    };\n    const end = () => {\n        state.isEnded = true;\n        clearTimeout(state.timer);\n        document.removeEventListener('visibilitychange', wait);\n    };\n    document.addEventListener('visibilitychange', wait);\n    wait();\n    return end;\n}\n"
}
